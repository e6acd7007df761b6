//! What stands behind the operands of an assignment and of `++` and `--`.

ghost use Rattle.std.specs.Prelude.{◌≡◌, ◌≤◌, ◌<◌, [], ◌∷◌, ◌++◌, OnOk};
ghost use Rattle.a64_code.specs.declared.instr.Instr.TheVariants.{Nop};
ghost use Rattle.block_meaning.specs.Operators.{gives_old as old_given};
ghost use Rattle.gen_base.specs.Accesses.{Behind, OnStack, load_scalar, store_scalar};
ghost use Rattle.gen_base.specs.Code.{Appends, in_turn, plain};
ghost use Rattle.gen_base.specs.Operators.{combined, stepped};
ghost use Rattle.gen_base.specs.Registers.{left, move, scratch};
ghost use Rattle.gen_base.specs.Waiting.{fetch};
ghost use Rattle.gen_expr.specs.Nodes.{new_or_old};

use crate::destination::Destination;
use a64_code::{Instr, Reg};
use c_ast::{AssignOperator, Step};
use c_type_base::{Ty, Typed};
use gen_base::{
    LEFT, SCRATCH, push_combined, push_fetch, push_instr, push_load, push_load_local, push_move,
    push_stepped, push_store, push_store_local,
};
use std::alloc::AllocError;
use sym_code::SymCode;

/// Appends: what a local has, with the right side, which is in the register, comes into the local and the register.
pub fn push_combined_local(
    unit: &Typed,
    operator: AssignOperator,
    ty: &Ty,
    right: &Ty,
    start: u64,
    reg: Reg,
    code: &mut SymCode,
) -> Result<(), AllocError>
    requires { start < 32768 }
    ensures { OnOk result (Appends code.old (in_turn (plain (load_scalar ty.now (OnStack start) left ∷ [])
        ∷ combined unit.now.structs operator ty.now right.now reg
        ∷ plain (store_scalar ty.now (OnStack start) reg ∷ []) ∷ [])) code.new) }
{
    push_load_local(code, ty, start, LEFT)?;
    push_combined(code, unit, operator, ty, right, reg)?;
    push_store_local(code, ty, start, reg)
}

/// Appends the same with the object whose place is kept in a temp.
pub fn push_combined_behind(
    unit: &Typed,
    operator: AssignOperator,
    ty: &Ty,
    right: &Ty,
    to: Destination,
    code: &mut SymCode,
) -> Result<(), AllocError>
    requires { to.temp ≤ 32764 }
    ensures { OnOk result (Appends code.old (in_turn (plain (fetch to.temp scratch ++ load_scalar ty.now (Behind scratch) left ∷ [])
        ∷ combined unit.now.structs operator ty.now right.now to.reg
        ∷ plain (fetch to.temp scratch ++ store_scalar ty.now (Behind scratch) to.reg ∷ []) ∷ [])) code.new) }
{
    push_fetch(code, to.temp, SCRATCH)?;
    push_load(code, ty, SCRATCH, LEFT)?;
    push_combined(code, unit, operator, ty, right, to.reg)?;
    push_fetch(code, to.temp, SCRATCH)?;
    push_store(code, ty, SCRATCH, to.reg)
}

// Whether the value of a step is the one before it.
fn gives_old(step: Step) -> bool
    ensures { result ≡ old_given step }
{
    match step {
        Step::PostIncrement | Step::PostDecrement => true,
        _ => false,
    }
}

// Appends: the value after a step, which is in X16, into the register, if it is the one that the step gives.
fn push_new(step: Step, reg: Reg, code: &mut SymCode) -> Result<(), AllocError>
    ensures { OnOk result (Appends code.old (plain (new_or_old step reg)) code.new) }
{
    if gives_old(step) {
        Ok(())
    } else {
        push_move(code, LEFT, reg)
    }
}

/// Appends a step of a local.
pub fn push_step_local(
    unit: &Typed,
    step: Step,
    ty: &Ty,
    start: u64,
    reg: Reg,
    code: &mut SymCode,
) -> Result<(), AllocError>
    requires { start < 32768 }
    ensures { OnOk result (Appends code.old (plain (Nop ∷ load_scalar ty.now (OnStack start) reg
        ∷ stepped unit.now.structs step ty.now reg ++ store_scalar ty.now (OnStack start) left ∷ new_or_old step reg)) code.new) }
{
    push_instr(code, Instr::Nop)?;
    push_load_local(code, ty, start, reg)?;
    push_stepped(code, unit, step, ty, reg)?;
    push_store_local(code, ty, start, LEFT)?;
    push_new(step, reg, code)
}

/// Appends a step of the object whose place is in the register.
pub fn push_step_behind(
    unit: &Typed,
    step: Step,
    ty: &Ty,
    reg: Reg,
    code: &mut SymCode,
) -> Result<(), AllocError>
    ensures { OnOk result (Appends code.old (plain (move reg scratch ∷ load_scalar ty.now (Behind scratch) reg
        ∷ stepped unit.now.structs step ty.now reg ++ store_scalar ty.now (Behind scratch) left ∷ new_or_old step reg)) code.new) }
{
    push_move(code, reg, SCRATCH)?;
    push_load(code, ty, SCRATCH, reg)?;
    push_stepped(code, unit, step, ty, reg)?;
    push_store(code, ty, SCRATCH, LEFT)?;
    push_new(step, reg, code)
}
