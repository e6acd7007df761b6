//! Why a program is refused for its types.

ghost use Rattle.std.specs.Prelude.{◌≡◌};
ghost use Rattle.c_types.specs.Refusal as spec;

use c_ast::Span;
use c_type_expr::Fault;
use thiserror::Error;

/// The first rule that a program breaks, with the span of the construct that breaks it.
#[derive(Debug, Drop, Error)]
pub enum TypeRefusal {
    /// A name or a tag that is used is not declared.
    #[error("Undeclared")]
    Undeclared { span: Span },
    /// A name is declared twice in one scope, or its declarations do not agree.
    #[error("Redeclared")]
    Redeclared { span: Span },
    /// What has to be changed, or to have an address, is no lvalue for it.
    #[error("NotLvalue")]
    NotLvalue { span: Span },
    /// The types of operands do not fit.
    #[error("Mismatch")]
    Mismatch { span: Span },
    /// What is called is not the name of a function.
    #[error("NotCallable")]
    NotCallable { span: Span },
    /// There are more or fewer arguments than parameters, or more than eight parameters.
    #[error("ArgCount")]
    ArgCount { span: Span },
    /// A type has to be complete, and is not.
    #[error("Incomplete")]
    Incomplete { span: Span },
    /// An initialiser does not fit its object.
    #[error("BadInit")]
    BadInit { span: Span },
    /// A type has more than 16,777,216 bytes.
    #[error("ObjectTooLarge")]
    ObjectTooLarge { span: Span },
    /// A struct has no such member.
    #[error("NoMember")]
    NoMember { span: Span },
    /// `main` is not `int main(void)`, or it is static or an object.
    #[error("MainForm")]
    MainForm { span: Span },
    /// Memory ran out, which says nothing of the program.
    #[error("NoMemory")]
    NoMemory,
}

impl TypeRefusal {
    /// The number of the rule, from 9 to 19 in the order above, and 0 for want of memory.
    pub fn number(&self) -> u8
        ensures { result ≡ spec.number_of self.now }
    {
        match self {
            TypeRefusal::Undeclared { .. } => 9,
            TypeRefusal::Redeclared { .. } => 10,
            TypeRefusal::NotLvalue { .. } => 11,
            TypeRefusal::Mismatch { .. } => 12,
            TypeRefusal::NotCallable { .. } => 13,
            TypeRefusal::ArgCount { .. } => 14,
            TypeRefusal::Incomplete { .. } => 15,
            TypeRefusal::BadInit { .. } => 16,
            TypeRefusal::ObjectTooLarge { .. } => 17,
            TypeRefusal::NoMember { .. } => 18,
            TypeRefusal::MainForm { .. } => 19,
            TypeRefusal::NoMemory => 0,
        }
    }

    /// The construct that breaks it; for want of memory the first byte.
    pub fn span(&self) -> Span
        ensures { result ≡ spec.span_of self.now }
    {
        match self {
            TypeRefusal::Undeclared { span }
            | TypeRefusal::Redeclared { span }
            | TypeRefusal::NotLvalue { span }
            | TypeRefusal::Mismatch { span }
            | TypeRefusal::NotCallable { span }
            | TypeRefusal::ArgCount { span }
            | TypeRefusal::Incomplete { span }
            | TypeRefusal::BadInit { span }
            | TypeRefusal::ObjectTooLarge { span }
            | TypeRefusal::NoMember { span }
            | TypeRefusal::MainForm { span } => *span,
            TypeRefusal::NoMemory => Span { start: 0, end: 0 },
        }
    }

    /// The byte at which that construct starts.
    pub fn place(&self) -> u32
        ensures { result ≡ spec.place_of self.now }
    {
        self.span().start
    }
}

/// The refusal for a broken rule.
pub fn refusal_of(fault: Fault) -> TypeRefusal
    ensures { result ≡ spec.refusal_of fault.number fault.span }
{
    let span = fault.span;
    match fault.number {
        9 => TypeRefusal::Undeclared { span },
        10 => TypeRefusal::Redeclared { span },
        11 => TypeRefusal::NotLvalue { span },
        12 => TypeRefusal::Mismatch { span },
        13 => TypeRefusal::NotCallable { span },
        14 => TypeRefusal::ArgCount { span },
        15 => TypeRefusal::Incomplete { span },
        16 => TypeRefusal::BadInit { span },
        17 => TypeRefusal::ObjectTooLarge { span },
        18 => TypeRefusal::NoMember { span },
        _ => TypeRefusal::MainForm { span },
    }
}
