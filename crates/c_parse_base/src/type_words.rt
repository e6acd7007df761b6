//! The words of an integer type.

ghost use Rattle.std.specs.Prelude.{◌≡◌};
ghost use Rattle.c_grammar.specs.Words.{word_of};
ghost use Rattle.c_parse_base.specs.Reading.Answers.{next_value};
ghost use Rattle.c_parse_base.specs.Reading.TypeWords as spec;

use crate::cursor::Cursor;
use c_ast::{IntType, Keyword, Span};

/// A keyword with which an integer type begins (C11 6.7.2).
#[derive(Clone, Copy)]
pub enum FirstWord {
    Signed,
    Unsigned,
    Int,
    Char,
    Short,
    Long,
}

/// A keyword that may stand behind `signed` or `unsigned`, beside `int`.
#[derive(Clone, Copy)]
pub enum SizeWord {
    Char,
    Short,
    Long,
}

/// The words of an integer type as far as they are read.
#[derive(Clone, Copy)]
pub struct TypeWords {
    /// The type if nothing follows.
    pub ty: IntType,
    pub unsigned: bool,
    /// Whether `char`, `short` or `long` may follow.
    pub takes_size: bool,
    /// Whether `int` may follow.
    pub takes_int: bool,
    /// The number of the byte behind the last word.
    pub end: u32,
}

impl TypeWords {
    /// Of the first word alone.
    pub fn first(word: FirstWord, end: u32) -> TypeWords
        ensures { result ≡ spec.first_words word end }
    {
        let (ty, unsigned) = match word {
            FirstWord::Signed | FirstWord::Int => (IntType::Int, false),
            FirstWord::Unsigned => (IntType::UInt, true),
            FirstWord::Char => (IntType::Char, false),
            FirstWord::Short => (IntType::Short, false),
            FirstWord::Long => (IntType::Long, false),
        };
        TypeWords {
            ty,
            unsigned,
            takes_size: matches!(word, FirstWord::Signed | FirstWord::Unsigned),
            takes_int: !matches!(word, FirstWord::Int | FirstWord::Char),
            end,
        }
    }

    /// With a size behind `signed` or `unsigned`.
    pub fn sized(&self, size: SizeWord, end: u32) -> TypeWords
        ensures { result ≡ spec.sized_of self.now (size, end) }
    {
        let ty = match (size, self.unsigned) {
            (SizeWord::Char, false) => IntType::SignedChar,
            (SizeWord::Char, true) => IntType::UnsignedChar,
            (SizeWord::Short, false) => IntType::Short,
            (SizeWord::Short, true) => IntType::UShort,
            (SizeWord::Long, false) => IntType::Long,
            (SizeWord::Long, true) => IntType::ULong,
        };
        TypeWords {
            ty,
            unsigned: self.unsigned,
            takes_size: false,
            takes_int: !matches!(size, SizeWord::Char),
            end,
        }
    }

    /// With `int` behind them.
    pub fn int(&self, place: Span) -> TypeWords
        ensures { result ≡ spec.int_of self.now place }
    {
        TypeWords {
            ty: self.ty,
            unsigned: self.unsigned,
            takes_size: false,
            takes_int: false,
            end: place.end,
        }
    }
}

/// The first word of an integer type, if one comes next.
#[tactic(auto, unfolding(crate::specs::Reading::TypeWords::first_at), using(crate::specs::Laws::TypeCode::among_seen, crate::specs::Laws::TypeCode::among_unseen, crate::specs::Laws::TypeCode::among_none))]
pub fn next_first(cursor: &Cursor<'_, '_>) -> Option<FirstWord>
    ensures { result ≡ next_value (λ t. spec.first_at (word_of t)) cursor.now }
{
    if cursor.sees_keyword(Keyword::Signed) {
        Some(FirstWord::Signed)
    } else if cursor.sees_keyword(Keyword::Unsigned) {
        Some(FirstWord::Unsigned)
    } else if cursor.sees_keyword(Keyword::Int) {
        Some(FirstWord::Int)
    } else if cursor.sees_keyword(Keyword::Char) {
        Some(FirstWord::Char)
    } else if cursor.sees_keyword(Keyword::Short) {
        Some(FirstWord::Short)
    } else if cursor.sees_keyword(Keyword::Long) {
        Some(FirstWord::Long)
    } else {
        None
    }
}

/// `char`, `short` or `long`, if one comes next.
#[tactic(auto, unfolding(crate::specs::Reading::TypeWords::size_at), using(crate::specs::Laws::TypeCode::among_seen, crate::specs::Laws::TypeCode::among_unseen, crate::specs::Laws::TypeCode::among_none))]
pub fn next_size(cursor: &Cursor<'_, '_>) -> Option<SizeWord>
    ensures { result ≡ next_value (λ t. spec.size_at (word_of t)) cursor.now }
{
    if cursor.sees_keyword(Keyword::Char) {
        Some(SizeWord::Char)
    } else if cursor.sees_keyword(Keyword::Short) {
        Some(SizeWord::Short)
    } else if cursor.sees_keyword(Keyword::Long) {
        Some(SizeWord::Long)
    } else {
        None
    }
}
