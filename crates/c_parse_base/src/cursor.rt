//! The tokens that are left.

ghost use Rattle.std.specs.Prelude.{◌≡◌, ◌≢◌, [], length, Some, None, IfOk, IfErr, MatchOption};
ghost use Rattle.c_ast.specs.Seen.{seen, all_seen};
ghost use Rattle.c_grammar.specs.Words.{end_of, keyword, punctuator, word_of};
ghost use Rattle.c_parse_base.specs.Reading.Answer.{sees};
ghost use Rattle.c_parse_base.specs.Reading.Answers.{Answers, next_of, rest_of};
ghost use Rattle.c_parse_base.specs.Reading.Spans.{start_of};
ghost use Rattle.c_parse_base.specs.Reading.Words as spec;

use crate::fault::{Fault, Stop};
use crate::words::Named;
use c_ast::{Keyword, Lexeme, Punctuator, Span, Token};
use std::alloc::Global;
use std::marker::Model;

/// A place in a list of tokens: contracts see it as the tokens from there on, and these without the place of their bytes in memory.
#[derive(Drop)]
pub struct Cursor<'s, 't> {
    left: &'s [Token<'t>],
}

impl<'s, 't> Model for Cursor<'s, 't> {
    ghost use Rattle.std.specs.Prelude.{List};
    ghost use Rattle.c_ast.specs.Seen.{Seen, all_seen};

    ghost Value = { List Seen };

    ghost view = { λ c. all_seen c.left.now };
}

/// Where a token stands.
pub fn place_of(token: &Token<'_>) -> Span
    ensures { result ≡ spec.place_of (seen token.now) }
{
    let bytes = u32::try_from(token.text.len()).unwrap_or(u32::MAX);
    Span {
        start: token.start,
        end: token.start.saturating_add(bytes),
    }
}

impl<'s, 't> Cursor<'s, 't> {
    /// At the first token.
    pub fn new(tokens: &'s [Token<'t>]) -> Cursor<'s, 't>
        ensures { result ≡ all_seen tokens.now }
    {
        Cursor { left: tokens }
    }

    /// The next token.
    pub fn peek(&self) -> Option<&'s Token<'t>>
        ensures { MatchOption result (next_of self.now ≡ None) (λ token. next_of self.now ≡ Some (seen token.now)) }
    {
        self.left.first()
    }

    /// Where the next token starts, or 0 at the end.
    pub fn start(&self) -> u32
        ensures { result ≡ start_of self.now }
    {
        match self.left {
            [] => 0,
            [next, ..] => next.start,
        }
    }

    /// How many tokens are left.
    pub fn left(&self) -> usize
        ensures { result ≡ length self.now }
    {
        self.left.len()
    }

    /// Nothing may be left.
    pub fn expect_end(&self) -> Result<(), Stop>
        ensures ends { IfOk result (λ _. self.now ≡ []) }
        ensures goes_on { IfErr result (λ e. (e ≡ Stop.Fault Fault.Unexpected) × (self.now ≢ [])) }
    {
        match self.left {
            [] => Ok(()),
            _ => Err(Stop::Fault(Fault::Unexpected)),
        }
    }

    /// Whether this punctuator comes next.
    pub fn sees(&self, mark: Punctuator) -> bool
        ensures { result ≡ sees (spec.is (punctuator mark)) self.now }
    {
        match self.left {
            [] => false,
            [next, ..] => match next.kind {
                Lexeme::Punct(number) => number == mark.number(),
                _ => false,
            },
        }
    }

    /// Whether this keyword comes next.
    pub fn sees_keyword(&self, word: Keyword) -> bool
        ensures { result ≡ sees (spec.is (keyword word)) self.now }
    {
        match self.left {
            [] => false,
            [next, ..] => match next.kind {
                Lexeme::Keyword(number) => number == word.number(),
                _ => false,
            },
        }
    }

    /// Passes the next token, if there is one.
    pub fn skip(&mut self)
        ensures { self.new ≡ rest_of self.old }
    {
        if let [_, rest @ ..] = self.left {
            self.left = rest;
        }
    }

    /// Takes the next token.
    #[tactic(auto, unfolding(crate::specs::Reading::Words::any))]
    pub fn take(&mut self) -> Result<Span, Stop>
        ensures { Answers (spec.any self.old) result self.new }
    {
        match self.left {
            [] => Err(Stop::Fault(Fault::Unexpected)),
            [next, rest @ ..] => {
                let place = place_of(next);
                self.left = rest;
                Ok(place)
            }
        }
    }

    /// Takes this punctuator.
    #[tactic(auto, using(crate::specs::Laws::WordLaws::punct_seen, crate::specs::Laws::WordLaws::punct_unseen))]
    pub fn expect(&mut self, mark: Punctuator) -> Result<Span, Stop>
        ensures { Answers (spec.punct mark self.old) result self.new }
    {
        if !self.sees(mark) {
            return Err(Stop::Fault(Fault::Unexpected));
        }
        self.take()
    }

    /// Takes this keyword.
    #[tactic(auto, using(crate::specs::Laws::WordLaws::key_seen, crate::specs::Laws::WordLaws::key_unseen))]
    pub fn expect_keyword(&mut self, word: Keyword) -> Result<Span, Stop>
        ensures { Answers (spec.key word self.old) result self.new }
    {
        if !self.sees_keyword(word) {
            return Err(Stop::Fault(Fault::Unexpected));
        }
        self.take()
    }

    /// Takes a name.
    #[tactic(auto, unfolding(crate::specs::Reading::Words::name))]
    pub fn name(&mut self, alloc: Global) -> Result<Named, Stop>
        ensures { Answers (spec.name self.old) result self.new }
    {
        match self.left {
            [] => Err(Stop::Fault(Fault::Unexpected)),
            [next, rest @ ..] => {
                let Lexeme::Name(name) = &next.kind else {
                    return Err(Stop::Fault(Fault::Unexpected));
                };
                let name = name.copy(alloc)?;
                let place = place_of(next);
                self.left = rest;
                Ok(Named { name, place })
            }
        }
    }
}
