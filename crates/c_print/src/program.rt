//! The lexemes of a program.

ghost use Rattle.std.specs.Prelude.{◌≡◌, ◌++◌, ◌∷◌, [], IfOk, OnOk, List, ℕ};
ghost use Rattle.c_ast.specs.declared.token.Token.{Token};
ghost use Rattle.c_grammar.specs.Spells.{Spells};
ghost use Rattle.c_print.specs.Tokens.{tokens_of};
ghost use Rattle.c_print.specs.Spans.{bare_program};
ghost use Rattle.c_print.specs.Program.{head_of, function_body, external_of, lexemes_of_program};

use crate::declaration::{print_objects, print_storage, print_struct};
use crate::parameter::print_parameters;
use crate::statement::print_stmt;
use crate::types::{print_base, print_stars};
use crate::words::{print_name, print_punct};
use c_ast::{External, Function, Lexeme, Program, Punctuator, Stmt};
use std::alloc::{AllocError, Global};

fn print_head(alloc: Global, function: &Function, out: &mut Vec<Lexeme>) -> Result<(), AllocError>
    ensures { OnOk result (out.new.items ≡ out.old.items ++ head_of function.now) }
{
    print_storage(function.storage, out)?;
    print_base(alloc, &function.result, out)?;
    print_stars(&function.result, out)?;
    print_name(alloc, &function.name, out)?;
    print_parameters(alloc, function.params.as_slice(), out)
}

fn print_body(alloc: Global, body: &Option<Stmt>, out: &mut Vec<Lexeme>) -> Result<(), AllocError>
    ensures { OnOk result (out.new.items ≡ out.old.items ++ function_body body.now) }
{
    match body {
        None => print_punct(Punctuator::Semicolon, out),
        Some(body) => print_stmt(alloc, body, out),
    }
}

fn print_external(
    alloc: Global,
    external: &External,
    out: &mut Vec<Lexeme>,
) -> Result<(), AllocError>
    ensures { OnOk result (out.new.items ≡ out.old.items ++ external_of external.now) }
{
    match external {
        External::Include => {
            out.push(Lexeme::Include)?;
            Ok(())
        }
        External::Struct(declared) => {
            print_struct(alloc, declared, out)?;
            print_punct(Punctuator::Semicolon, out)
        }
        External::Objects(storage, decls) => {
            print_storage(*storage, out)?;
            print_objects(alloc, decls.as_slice(), out)
        }
        External::Function(function) => {
            print_head(alloc, function, out)?;
            print_body(alloc, &function.body, out)
        }
    }
}

/// The lexemes of a program, in order. Where some tokens spell the program, tokens of these lexemes spell it too, spans
/// aside (C11 6.5 to 6.9). The error is want of memory.
pub fn print(alloc: Global, program: &Program) -> Result<Vec<Lexeme>, AllocError>
    ensures lexemes { IfOk result (λ out. out.items ≡ lexemes_of_program program.now) }
    ensures spelled { (tokens : List Token) (depth : ℕ) → Spells tokens program.now depth → IfOk result (λ out. Spells (tokens_of out.items) (bare_program program.now) depth) }
{
    let mut out = Vec::new(alloc);
    for external in program.items.as_slice() {
        print_external(alloc, external, &mut out)?;
    }
    Ok(out)
}
