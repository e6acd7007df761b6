// A refusal with its place, and that of a source with the byte that is told of it.
ghost use Rattle.std.specs.Prelude.{◌≡◌, ◌≤◌, length, Err};
ghost use Rattle.c_lex.specs.Refusal.{text_limit};
ghost use Rattle.c_parse.specs.Parsed.{Parsed, limit};
ghost use Rattle.mt_compile.specs.Causes.{of_plan, of_text, of_types, without_place};
ghost use Rattle.mt_compile.specs.Refused.{IsReadCause, byte_at};
ghost use Rattle.mt_compile.specs.Source.{HasTokens};

use crate::refusal::CompileRefusal;
use c_ast::Token;
use c_lex::LexRefusal;
use c_parse::ParseRefusal;
use c_types::TypeRefusal;
use frame_plan::PlanRefusal;
use std::alloc::{AllocError, AllocFailed};

/// Why something is refused, and the place in it that is told: 0 where none is told.
#[derive(Drop)]
pub struct Refused<R> {
    pub refusal: R,
    pub place: u32,
}

impl<R> Refused<R> {
    /// A refusal that names no place.
    pub fn without_place(refusal: R) -> Refused<R>
        ensures { result ≡ without_place refusal }
    {
        Refused { refusal, place: 0 }
    }
}

impl<R: From<AllocError>> From<AllocError> for Refused<R> {
    ghost from_gives = { λ e refused. R.From.from_gives e refused.refusal };

    fn from(e: AllocError) -> Refused<R> {
        Refused::without_place(R::from(e))
    }
}

impl<T: Drop, R: From<AllocError>> From<AllocFailed<T>> for Refused<R> {
    ghost from_gives = { λ _ refused. (e : _) × R.From.from_gives e refused.refusal };

    fn from(e: AllocFailed<T>) -> Refused<R> {
        Refused::from(AllocError::from(e))
    }
}

impl CompileRefusal {
    /// Of a text that is too long, or not gaps and tokens in turn, with its byte.
    pub(crate) fn of_text(refusal: LexRefusal) -> Refused<CompileRefusal>
        ensures { result ≡ of_text refusal }
    {
        let place = refusal.place();
        match refusal {
            LexRefusal::NoMemory => Refused::without_place(CompileRefusal::NoMemory),
            refusal => Refused {
                refusal: CompileRefusal::Lex(refusal),
                place,
            },
        }
    }

    /// Of tokens that spell no program that is read, with the byte of the token that it names.
    pub(crate) fn of_tokens(
        text: &[u8],
        tokens: &[Token<'_>],
        refusal: ParseRefusal,
    ) -> Refused<CompileRefusal>
        requires held { HasTokens text.now tokens.now }
        requires cause { Parsed limit tokens.now (Err refusal) }
        ensures { IsReadCause text.now result }
    {
        match refusal {
            ParseRefusal::Unexpected { place } => Refused {
                refusal: CompileRefusal::Parse(ParseRefusal::Unexpected { place }),
                place: byte_at(text, tokens, place),
            },
            ParseRefusal::TooDeep { place } => Refused {
                refusal: CompileRefusal::Parse(ParseRefusal::TooDeep { place }),
                place: byte_at(text, tokens, place),
            },
            ParseRefusal::NoMemory => Refused::without_place(CompileRefusal::NoMemory),
        }
    }

    /// Of a program that breaks a rule on types, with the byte where its construct starts.
    pub(crate) fn of_types(refusal: TypeRefusal) -> Refused<CompileRefusal>
        ensures { result ≡ of_types refusal }
    {
        let place = refusal.place();
        match refusal {
            TypeRefusal::NoMemory => Refused::without_place(CompileRefusal::NoMemory),
            refusal => Refused {
                refusal: CompileRefusal::Types(refusal),
                place,
            },
        }
    }

    /// Of a program with too many functions or a frame that is too large, with the byte where that function starts.
    pub(crate) fn of_plan(refusal: PlanRefusal) -> Refused<CompileRefusal>
        ensures { result ≡ of_plan refusal }
    {
        let place = refusal.place();
        match refusal {
            PlanRefusal::NoMemory => Refused::without_place(CompileRefusal::NoMemory),
            refusal => Refused {
                refusal: CompileRefusal::Plan(refusal),
                place,
            },
        }
    }
}

// Where the token at a place starts; the end of the text where there is none.
fn byte_at(text: &[u8], tokens: &[Token<'_>], place: u32) -> u32
    requires text { length text.now ≤ text_limit }
    requires place { place ≤ length tokens.now }
    ensures { result ≡ byte_at text.now tokens.now place }
{
    match &tokens[place as usize..] {
        [] => text.len() as u32,
        [token, ..] => token.start,
    }
}
