//! The punctuators of the profile (C11 6.4.6 without `...`, `#`, `##` and the digraphs), in the order of their numbers.

ghost use Rattle.std.specs.Prelude.{◌≡◌, ◌≢◌, IfSome, IfNone};
ghost use Rattle.c_ast.specs.Words.{punctuator_number, punctuator_of};

use crate::table::index_in;

/// A punctuator by its name. Tokens and operators of the tree carry its number.
#[derive(Clone, Copy, Debug, PartialEq, Eq)]
pub enum Punctuator {
    /// `{`
    LeftBrace,
    /// `}`
    RightBrace,
    /// `(`
    LeftParen,
    /// `)`
    RightParen,
    /// `[`
    LeftBracket,
    /// `]`
    RightBracket,
    /// `;`
    Semicolon,
    /// `,`
    Comma,
    /// `.`
    Dot,
    /// `->`
    Arrow,
    /// `++`
    PlusPlus,
    /// `--`
    MinusMinus,
    /// `&`
    Ampersand,
    /// `*`
    Star,
    /// `+`
    Plus,
    /// `-`
    Minus,
    /// `~`
    Tilde,
    /// `!`
    Exclamation,
    /// `/`
    Slash,
    /// `%`
    Percent,
    /// `<<`
    ShiftLeft,
    /// `>>`
    ShiftRight,
    /// `<`
    Less,
    /// `>`
    Greater,
    /// `<=`
    LessEqual,
    /// `>=`
    GreaterEqual,
    /// `==`
    EqualEqual,
    /// `!=`
    ExclamationEqual,
    /// `^`
    Caret,
    /// `|`
    Bar,
    /// `&&`
    AmpersandAmpersand,
    /// `||`
    BarBar,
    /// `?`
    Question,
    /// `:`
    Colon,
    /// `=`
    Equal,
    /// `+=`
    PlusEqual,
    /// `-=`
    MinusEqual,
    /// `*=`
    StarEqual,
    /// `/=`
    SlashEqual,
    /// `%=`
    PercentEqual,
    /// `<<=`
    ShiftLeftEqual,
    /// `>>=`
    ShiftRightEqual,
    /// `&=`
    AmpersandEqual,
    /// `^=`
    CaretEqual,
    /// `|=`
    BarEqual,
}

impl Punctuator {
    /// The place in the list of punctuators, from 0 to 44.
    pub fn number(self) -> u8
        ensures { result ≡ punctuator_number self }
    {
        self as u8
    }

    /// The punctuator with a number, if there is one.
    pub fn from_number(number: u8) -> Option<Punctuator>
        ensures some { IfSome result (λ k. punctuator_number k ≡ number) }
        ensures none { IfNone result ((k : Punctuator) → punctuator_number k ≢ number) }
    {
        BY_NUMBER.get(usize::from(number)).copied()
    }
}

/// The number of the punctuator that these bytes spell, if they spell one.
pub fn punctuator_of(bytes: &[u8]) -> Option<u8>
    ensures { result ≡ punctuator_of bytes.now }
{
    index_in(&PUNCTUATORS, bytes)
}

/// How each punctuator is spelled, by its number.
const PUNCTUATORS: [&[u8]; 45] = [
    b"{", b"}", b"(", b")", b"[", b"]", b";", b",", b".", b"->", b"++", b"--", b"&", b"*", b"+",
    b"-", b"~", b"!", b"/", b"%", b"<<", b">>", b"<", b">", b"<=", b">=", b"==", b"!=", b"^", b"|",
    b"&&", b"||", b"?", b":", b"=", b"+=", b"-=", b"*=", b"/=", b"%=", b"<<=", b">>=", b"&=",
    b"^=", b"|=",
];

/// Each punctuator in the place of its number.
const BY_NUMBER: [Punctuator; 45] = [
    Punctuator::LeftBrace,
    Punctuator::RightBrace,
    Punctuator::LeftParen,
    Punctuator::RightParen,
    Punctuator::LeftBracket,
    Punctuator::RightBracket,
    Punctuator::Semicolon,
    Punctuator::Comma,
    Punctuator::Dot,
    Punctuator::Arrow,
    Punctuator::PlusPlus,
    Punctuator::MinusMinus,
    Punctuator::Ampersand,
    Punctuator::Star,
    Punctuator::Plus,
    Punctuator::Minus,
    Punctuator::Tilde,
    Punctuator::Exclamation,
    Punctuator::Slash,
    Punctuator::Percent,
    Punctuator::ShiftLeft,
    Punctuator::ShiftRight,
    Punctuator::Less,
    Punctuator::Greater,
    Punctuator::LessEqual,
    Punctuator::GreaterEqual,
    Punctuator::EqualEqual,
    Punctuator::ExclamationEqual,
    Punctuator::Caret,
    Punctuator::Bar,
    Punctuator::AmpersandAmpersand,
    Punctuator::BarBar,
    Punctuator::Question,
    Punctuator::Colon,
    Punctuator::Equal,
    Punctuator::PlusEqual,
    Punctuator::MinusEqual,
    Punctuator::StarEqual,
    Punctuator::SlashEqual,
    Punctuator::PercentEqual,
    Punctuator::ShiftLeftEqual,
    Punctuator::ShiftRightEqual,
    Punctuator::AmpersandEqual,
    Punctuator::CaretEqual,
    Punctuator::BarEqual,
];
