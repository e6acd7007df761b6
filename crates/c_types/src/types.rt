//! The type of a member and of a function's result (C11 6.7.6).

ghost use Rattle.std.specs.Prelude.{IfOk};
ghost use Rattle.c_type_expr.specs.Expressions as spec;
ghost use Rattle.c_type_expr.specs.Outcomes.{on};
ghost use Rattle.c_type_expr.specs.Said as said;
ghost use Rattle.c_type_expr.specs.Walked.{Walked};

use c_ast::{CType, Span};
use c_type_base::Ty;
use c_type_expr::{Walk, whole_on, written};
use std::alloc::{AllocError, Global};

/// A type of which no length may be left out. The error is want of memory.
pub fn whole_type(
    walk: &mut Walk,
    alloc: Global,
    t: &CType,
    span: Span,
) -> Result<Option<Ty>, AllocError>
    ensures { IfOk result (λ k. Walked (on (spec.written t.now span) (said.whole span)) walk.old walk.new k) }
{
    let t = written(walk, alloc, t, span)?;
    Ok(whole_on(walk, span, t))
}
