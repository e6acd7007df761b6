// From the text of a source to its program.
ghost use Rattle.std.specs.Prelude.{IfOk, IfErr};
ghost use Rattle.mt_compile.specs.Refused.{IsReadCause};
ghost use Rattle.mt_compile.specs.Source.{SpelledBy};

use crate::refusal::CompileRefusal;
use crate::refused::Refused;
use c_ast::Program;
use c_lex::lex;
use c_parse::parse;
use std::alloc::Global;

/// The program that the tokens of a text spell, or the text's refusal with the byte that is told of it.
pub fn program_of(alloc: Global, text: &[u8]) -> Result<Program, Refused<CompileRefusal>>
    ensures spelled { IfOk result (SpelledBy text.now) }
    ensures refused { IfErr result (IsReadCause text.now) }
{
    let tokens = match lex(alloc, text) {
        Ok(tokens) => tokens,
        Err(refusal) => return Err(CompileRefusal::of_text(refusal)),
    };
    match parse(alloc, &tokens) {
        Ok(program) => Ok(program),
        Err(refusal) => Err(CompileRefusal::of_tokens(text, &tokens, refusal)),
    }
}
