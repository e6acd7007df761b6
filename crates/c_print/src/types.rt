//! The parts of a type: what stands before a declared name, and right before it.

ghost use Rattle.std.specs.Prelude.{◌≡◌, ◌++◌, ◌∷◌, [], OnOk};
ghost use Rattle.c_print.specs.Words.{punct};
ghost use Rattle.c_print.specs.Expressions.{type_name_of, parts_of};

use crate::words::{print_int_type, print_name, print_punct, print_word};
use c_ast::{CType, Keyword, Lexeme, Punctuator};
use std::alloc::{AllocError, Global};

/// Appends the words at the heart of a type.
pub fn print_base(alloc: Global, ty: &CType, out: &mut Vec<Lexeme>) -> Result<(), AllocError>
    ensures { OnOk result (out.new.items ≡ out.old.items ++ (parts_of ty.now).base) }
{
    match ty {
        CType::Void => print_word(Keyword::Void, out),
        CType::Int(int) => print_int_type(*int, out),
        CType::Struct(tag) => {
            print_word(Keyword::Struct, out)?;
            print_name(alloc, tag, out)
        }
        CType::Pointer(target) => print_base(alloc, target.get(), out),
        CType::Array(element, _) => print_base(alloc, element.get(), out),
    }
}

/// Appends a star for each pointer of a type.
pub fn print_stars(ty: &CType, out: &mut Vec<Lexeme>) -> Result<(), AllocError>
    ensures { OnOk result (out.new.items ≡ out.old.items ++ (parts_of ty.now).stars) }
{
    match ty {
        CType::Void | CType::Int(_) | CType::Struct(_) => Ok(()),
        CType::Pointer(target) => {
            print_stars(target.get(), out)?;
            print_punct(Punctuator::Star, out)
        }
        CType::Array(element, _) => print_stars(element.get(), out),
    }
}

/// Appends the type of a cast or of `sizeof`, in parentheses (C11 6.7.7).
pub fn print_type_name(alloc: Global, ty: &CType, out: &mut Vec<Lexeme>) -> Result<(), AllocError>
    ensures { OnOk result (out.new.items ≡ out.old.items ++ punct Punctuator.LeftParen ∷ type_name_of (parts_of ty.now) ++ punct Punctuator.RightParen ∷ []) }
{
    print_punct(Punctuator::LeftParen, out)?;
    print_base(alloc, ty, out)?;
    print_stars(ty, out)?;
    print_punct(Punctuator::RightParen, out)
}
