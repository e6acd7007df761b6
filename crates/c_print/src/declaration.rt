//! The lexemes of declarations.

ghost use Rattle.std.specs.Prelude.{◌≡◌, ◌++◌, ◌∷◌, [], OnOk, map, flat_map};
ghost use Rattle.c_print.specs.Words.{with_commas};
ghost use Rattle.c_print.specs.Expressions.{parts_of};
ghost use Rattle.c_print.specs.Declarations.{init_of, equal_init, declarator_of, object_of, base_of, objects_of, member_of, body_of};
ghost use Rattle.c_print.specs.Declarations.{struct_of, storage_of};

use crate::expr::{print_between, print_expr};
use crate::types::{print_base, print_stars};
use crate::words::{print_name, print_punct, print_separator, print_word};
use c_ast::{CType, Decl, Init, Keyword, Lexeme, Punctuator, Storage, StructDecl};
use sqlite_items::Items;
use std::alloc::{AllocError, Global};

/// Appends an initialiser (C11 6.7.9).
#[cycle(init)]
fn print_init(alloc: Global, init: &Init, out: &mut Vec<Lexeme>) -> Result<(), AllocError>
    ensures { OnOk result (out.new.items ≡ out.old.items ++ init_of init.now) }
{
    match init {
        Init::One(value) => print_expr(alloc, value, out),
        Init::List(inits, _) => {
            print_punct(Punctuator::LeftBrace, out)?;
            print_inits(alloc, inits.as_slice(), out)?;
            print_punct(Punctuator::RightBrace, out)
        }
    }
}

#[cycle(init)]
fn print_inits(alloc: Global, inits: &[Init], out: &mut Vec<Lexeme>) -> Result<(), AllocError>
    ensures { OnOk result (out.new.items ≡ out.old.items ++ with_commas (map init_of inits.now)) }
{
    for (index, init) in inits.iter().enumerate() {
        print_separator(index, out)?;
        print_init(alloc, init, out)?;
    }
    Ok(())
}

fn print_equal_init(
    alloc: Global,
    init: &Option<Init>,
    out: &mut Vec<Lexeme>,
) -> Result<(), AllocError>
    ensures { OnOk result (out.new.items ≡ out.old.items ++ equal_init init.now) }
{
    match init {
        None => Ok(()),
        Some(init) => {
            print_punct(Punctuator::Equal, out)?;
            print_init(alloc, init, out)
        }
    }
}

/// Appends the brackets of a type, each with its length (C11 6.7.6.2).
pub fn print_brackets(alloc: Global, ty: &CType, out: &mut Vec<Lexeme>) -> Result<(), AllocError>
    ensures { OnOk result (out.new.items ≡ out.old.items ++ (parts_of ty.now).brackets) }
{
    match ty {
        CType::Void | CType::Int(_) | CType::Struct(_) => Ok(()),
        CType::Pointer(target) => print_brackets(alloc, target.get(), out),
        CType::Array(element, None) => {
            print_punct(Punctuator::LeftBracket, out)?;
            print_punct(Punctuator::RightBracket, out)?;
            print_brackets(alloc, element.get(), out)
        }
        CType::Array(element, Some(length)) => {
            print_between(
                alloc,
                Punctuator::LeftBracket,
                length,
                Punctuator::RightBracket,
                out,
            )?;
            print_brackets(alloc, element.get(), out)
        }
    }
}

/// Appends a declared name among the stars and the brackets of its type (C11 6.7.6).
fn print_declarator(alloc: Global, decl: &Decl, out: &mut Vec<Lexeme>) -> Result<(), AllocError>
    ensures { OnOk result (out.new.items ≡ out.old.items ++ declarator_of decl.now) }
{
    print_stars(&decl.ty, out)?;
    print_name(alloc, &decl.name, out)?;
    print_brackets(alloc, &decl.ty, out)
}

fn print_object(alloc: Global, decl: &Decl, out: &mut Vec<Lexeme>) -> Result<(), AllocError>
    ensures { OnOk result (out.new.items ≡ out.old.items ++ object_of decl.now) }
{
    print_declarator(alloc, decl, out)?;
    print_equal_init(alloc, &decl.init, out)
}

fn print_object_list(alloc: Global, decls: &[Decl], out: &mut Vec<Lexeme>) -> Result<(), AllocError>
    ensures { OnOk result (out.new.items ≡ out.old.items ++ with_commas (map object_of decls.now)) }
{
    for (index, decl) in decls.iter().enumerate() {
        print_separator(index, out)?;
        print_object(alloc, decl, out)?;
    }
    Ok(())
}

/// Appends the words that the types of a declaration stand on: those of its first object.
#[tactic(auto, using(crate::proofs::Answers::base_of_first, crate::proofs::Answers::base_of_none))]
fn print_shared_base(alloc: Global, decls: &[Decl], out: &mut Vec<Lexeme>) -> Result<(), AllocError>
    ensures { OnOk result (out.new.items ≡ out.old.items ++ base_of decls.now) }
{
    match decls.first() {
        None => Ok(()),
        Some(decl) => print_base(alloc, &decl.ty, out),
    }
}

/// Appends a declaration of objects (C11 6.7).
pub fn print_objects(alloc: Global, decls: &[Decl], out: &mut Vec<Lexeme>) -> Result<(), AllocError>
    ensures { OnOk result (out.new.items ≡ out.old.items ++ objects_of decls.now) }
{
    print_shared_base(alloc, decls, out)?;
    print_object_list(alloc, decls, out)?;
    print_punct(Punctuator::Semicolon, out)
}

fn print_member(alloc: Global, decl: &Decl, out: &mut Vec<Lexeme>) -> Result<(), AllocError>
    ensures { OnOk result (out.new.items ≡ out.old.items ++ member_of decl.now) }
{
    print_base(alloc, &decl.ty, out)?;
    print_declarator(alloc, decl, out)?;
    print_punct(Punctuator::Semicolon, out)
}

fn print_members(alloc: Global, decls: &[Decl], out: &mut Vec<Lexeme>) -> Result<(), AllocError>
    ensures { OnOk result (out.new.items ≡ out.old.items ++ flat_map member_of decls.now) }
{
    for decl in decls {
        print_member(alloc, decl, out)?;
    }
    Ok(())
}

fn print_body(
    alloc: Global,
    members: &Option<Items<Decl>>,
    out: &mut Vec<Lexeme>,
) -> Result<(), AllocError>
    ensures { OnOk result (out.new.items ≡ out.old.items ++ body_of members.now) }
{
    match members {
        None => Ok(()),
        Some(members) => {
            print_punct(Punctuator::LeftBrace, out)?;
            print_members(alloc, members.as_slice(), out)?;
            print_punct(Punctuator::RightBrace, out)
        }
    }
}

/// Appends a struct with its tag, and its body where it has one (C11 6.7.2.1).
pub fn print_struct(
    alloc: Global,
    declared: &StructDecl,
    out: &mut Vec<Lexeme>,
) -> Result<(), AllocError>
    ensures { OnOk result (out.new.items ≡ out.old.items ++ struct_of declared.now) }
{
    print_word(Keyword::Struct, out)?;
    print_name(alloc, &declared.name, out)?;
    print_body(alloc, &declared.members, out)
}

/// Appends a storage class (C11 6.7.1).
pub fn print_storage(storage: Storage, out: &mut Vec<Lexeme>) -> Result<(), AllocError>
    ensures { OnOk result (out.new.items ≡ out.old.items ++ storage_of storage) }
{
    match storage {
        Storage::None => Ok(()),
        Storage::Static => print_word(Keyword::Static, out),
        Storage::Extern => print_word(Keyword::Extern, out),
    }
}
