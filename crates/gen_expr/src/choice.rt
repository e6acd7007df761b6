//! A choice of two values.

ghost use Rattle.std.specs.Prelude.{◌≡◌, ◌≤◌, ◌<◌, ◌+◌, ◌^◌, max, suc, [], ◌∷◌, OnOk};
ghost use Rattle.frame_layout.specs.Needs.{need};
ghost use Rattle.gen_base.specs.Code.{Appends, in_turn, only};
ghost use Rattle.gen_expr.specs.Expressions.{coded};
ghost use Rattle.gen_expr.specs.Nodes.{cond_value};

use crate::destination::Destination;
use crate::value::value;
use c_type_base::{TExpr, Typed};
use frame_layout::Frame;
use gen_base::{next_label, push};
use std::alloc::AllocError;
use sym_code::{SymCode, SymItem};

// Appends: the first of two codes ends, and goes behind the second, which begins.
fn push_else(label: u32, code: &mut SymCode) -> Result<(), AllocError>
    requires { label + 1 < 2 ^ 32 }
    ensures { OnOk result (Appends code.old (in_turn (only (SymItem.Jump (suc label)) ∷ only (SymItem.Label label) ∷ [])) code.new) }
{
    push(code, SymItem::Jump(label + 1))?;
    push(code, SymItem::Label(label))
}

// Appends `c ? a : b`.
#[cycle(value)]
pub fn cond(
    unit: &Typed,
    frame: &Frame,
    condition: &TExpr,
    then: &TExpr,
    other: &TExpr,
    to: Destination,
    code: &mut SymCode,
) -> Result<(), AllocError>
    requires { to.temp + max (need condition.now) (max (need then.now) (need other.now)) ≤ 32765 }
    ensures { OnOk result (Appends code.old (cond_value (coded unit.now.structs frame.now condition.now)
        (coded unit.now.structs frame.now then.now) (coded unit.now.structs frame.now other.now) to.temp to.reg) code.new) }
{
    value(unit, frame, condition, to, code)?;
    let label = next_label(code)?;
    push(code, SymItem::JumpIfZero(to.reg, label))?;
    value(unit, frame, then, to, code)?;
    push_else(label, code)?;
    value(unit, frame, other, to, code)?;
    push(code, SymItem::Label(label + 1))
}
