// The frame of a row's function.
ghost use Rattle.std.specs.Prelude.{IfSome};
ghost use Rattle.c_type_base.specs.Layout.{LaidOut};
ghost use Rattle.c_type_base.specs.Sizes.{HaveBytes, HaveObjects};
ghost use Rattle.frame_layout.specs.WellFormed.{IsWellFormed};

use c_ast::Program;
use c_lex::lex;
use c_parse::parse;
use c_type_base::Typed;
use c_types::check;
use frame_layout::{Frame, layout};
use std::alloc::Global;

/// A source has no more tokens than bytes, and these are few.
const MOST_TOKENS: usize = 65_536;

/// The frame of the one function that a source defines.
pub fn frame_of(alloc: Global, source: &[u8]) -> Option<Frame>
    ensures { IfSome result IsWellFormed }
{
    let tokens = lex(alloc, source).ok()?;
    let tokens = tokens.as_slice();
    if tokens.len() > MOST_TOKENS {
        return None;
    }
    match parse(alloc, tokens) {
        Ok(program) => of_program(alloc, &program),
        Err(_) => None,
    }
}

fn of_program(alloc: Global, program: &Program) -> Option<Frame>
    ensures { IfSome result IsWellFormed }
{
    match check(alloc, program) {
        Ok(typed) => of_typed(alloc, &typed),
        Err(_) => None,
    }
}

fn of_typed(alloc: Global, typed: &Typed) -> Option<Frame>
    requires laid_out { LaidOut typed.now.structs }
    requires objects { HaveObjects typed.now.structs typed.now.functions }
    requires bytes { HaveBytes typed.now.structs }
    ensures { IfSome result IsWellFormed }
{
    let functions = typed.functions.as_slice();
    if functions.len() != 1 {
        return None;
    }
    match layout(alloc, &functions[0], typed.structs.as_slice()) {
        Ok(frame) => Some(frame),
        Err(_) => None,
    }
}
