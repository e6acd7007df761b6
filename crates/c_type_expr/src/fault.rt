//! Broken rules, and which of them comes first.

ghost use Rattle.std.specs.Prelude.{◌≡◌};
ghost use Rattle.c_type_expr.specs.Least.{comes_before};

use c_ast::Span;

/// A construct breaks a rule.
#[derive(Clone, Copy)]
pub struct Fault {
    /// The rule's number, from 9 to 19.
    pub number: u8,
    /// Of the construct.
    pub span: Span,
}

impl Fault {
    /// By the end of the construct, then by its start, the last first, and then by the number.
    pub fn comes_before(self, other: Fault) -> bool
        ensures { result ≡ comes_before self other }
    {
        if self.span.end != other.span.end {
            return self.span.end < other.span.end;
        }
        if self.span.start != other.span.start {
            return other.span.start < self.span.start;
        }
        self.number < other.number
    }
}
