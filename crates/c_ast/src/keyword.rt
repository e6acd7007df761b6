//! The keywords of C11 6.4.1, which are numbered from 0 in the order of that clause.

ghost use Rattle.std.specs.Prelude.{◌≡◌, ◌≢◌, IfSome, IfNone};
ghost use Rattle.c_ast.specs.Words.{keyword_number, keyword_of};

use crate::table::index_in;

/// A keyword by its name. Tokens carry its number.
#[derive(Clone, Copy, Debug, PartialEq, Eq)]
pub enum Keyword {
    /// `auto`
    Auto,
    /// `break`
    Break,
    /// `case`
    Case,
    /// `char`
    Char,
    /// `const`
    Const,
    /// `continue`
    Continue,
    /// `default`
    Default,
    /// `do`
    Do,
    /// `double`
    Double,
    /// `else`
    Else,
    /// `enum`
    Enum,
    /// `extern`
    Extern,
    /// `float`
    Float,
    /// `for`
    For,
    /// `goto`
    Goto,
    /// `if`
    If,
    /// `inline`
    Inline,
    /// `int`
    Int,
    /// `long`
    Long,
    /// `register`
    Register,
    /// `restrict`
    Restrict,
    /// `return`
    Return,
    /// `short`
    Short,
    /// `signed`
    Signed,
    /// `sizeof`
    Sizeof,
    /// `static`
    Static,
    /// `struct`
    Struct,
    /// `switch`
    Switch,
    /// `typedef`
    Typedef,
    /// `union`
    Union,
    /// `unsigned`
    Unsigned,
    /// `void`
    Void,
    /// `volatile`
    Volatile,
    /// `while`
    While,
    /// `_Alignas`
    Alignas,
    /// `_Alignof`
    Alignof,
    /// `_Atomic`
    Atomic,
    /// `_Bool`
    Bool,
    /// `_Complex`
    Complex,
    /// `_Generic`
    Generic,
    /// `_Imaginary`
    Imaginary,
    /// `_Noreturn`
    Noreturn,
    /// `_Static_assert`
    StaticAssert,
    /// `_Thread_local`
    ThreadLocal,
}

impl Keyword {
    /// The place in the list of C11 6.4.1, from 0 to 43.
    pub fn number(self) -> u8
        ensures { result ≡ keyword_number self }
    {
        self as u8
    }

    /// The keyword with a number, if there is one.
    pub fn from_number(number: u8) -> Option<Keyword>
        ensures some { IfSome result (λ k. keyword_number k ≡ number) }
        ensures none { IfNone result ((k : Keyword) → keyword_number k ≢ number) }
    {
        BY_NUMBER.get(usize::from(number)).copied()
    }
}

/// The number of the keyword that these bytes spell, if they spell one.
pub fn keyword_of(bytes: &[u8]) -> Option<u8>
    ensures { result ≡ keyword_of bytes.now }
{
    index_in(&KEYWORDS, bytes)
}

/// How each keyword is spelled, by its number.
const KEYWORDS: [&[u8]; 44] = [
    b"auto",
    b"break",
    b"case",
    b"char",
    b"const",
    b"continue",
    b"default",
    b"do",
    b"double",
    b"else",
    b"enum",
    b"extern",
    b"float",
    b"for",
    b"goto",
    b"if",
    b"inline",
    b"int",
    b"long",
    b"register",
    b"restrict",
    b"return",
    b"short",
    b"signed",
    b"sizeof",
    b"static",
    b"struct",
    b"switch",
    b"typedef",
    b"union",
    b"unsigned",
    b"void",
    b"volatile",
    b"while",
    b"_Alignas",
    b"_Alignof",
    b"_Atomic",
    b"_Bool",
    b"_Complex",
    b"_Generic",
    b"_Imaginary",
    b"_Noreturn",
    b"_Static_assert",
    b"_Thread_local",
];

/// Each keyword in the place of its number.
const BY_NUMBER: [Keyword; 44] = [
    Keyword::Auto,
    Keyword::Break,
    Keyword::Case,
    Keyword::Char,
    Keyword::Const,
    Keyword::Continue,
    Keyword::Default,
    Keyword::Do,
    Keyword::Double,
    Keyword::Else,
    Keyword::Enum,
    Keyword::Extern,
    Keyword::Float,
    Keyword::For,
    Keyword::Goto,
    Keyword::If,
    Keyword::Inline,
    Keyword::Int,
    Keyword::Long,
    Keyword::Register,
    Keyword::Restrict,
    Keyword::Return,
    Keyword::Short,
    Keyword::Signed,
    Keyword::Sizeof,
    Keyword::Static,
    Keyword::Struct,
    Keyword::Switch,
    Keyword::Typedef,
    Keyword::Union,
    Keyword::Unsigned,
    Keyword::Void,
    Keyword::Volatile,
    Keyword::While,
    Keyword::Alignas,
    Keyword::Alignof,
    Keyword::Atomic,
    Keyword::Bool,
    Keyword::Complex,
    Keyword::Generic,
    Keyword::Imaginary,
    Keyword::Noreturn,
    Keyword::StaticAssert,
    Keyword::ThreadLocal,
];
