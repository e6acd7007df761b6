// Granules one after another that get a tag: in a list, and in a loop.
ghost use Rattle.std.specs.Prelude.{◌≡◌, ◌≤◌, ◌<◌, ◌+◌, ◌*◌, ◌/◌, ◌%◌, ◌++◌, OnOk};
ghost use Rattle.a64_laws.specs.Tagging.{loop_end, tag_quickly, tag_shortly, tags_from, tags_in_rounds};
ghost use Rattle.a64_laws.specs.Forms.{stack_pointer};
ghost use Rattle.tag_plan.specs.Lists as spec;

use crate::places::{COUNT, PLACE, SOURCE};
use a64_code::{Instr, Reg};
use std::alloc::AllocError;

// The stack pointer, in a field that takes the number 31 for it.
pub const STACK_POINTER: Reg = Reg(31);

// Appends: so many granules from the place on get the tag of a register, two at a time and the last one alone.
#[tactic(auto, using(crate::proofs::Turns::granules_turn, crate::proofs::Turns::last_granule, crate::proofs::Turns::no_granule))]
fn push_granules(code: &mut Vec<Instr>, tag: Reg, granules: u16) -> Result<(), AllocError>
    requires { granules ≤ 16 }
    ensures { OnOk result (code.new.items ≡ code.old.items ++ tags_from tag spec.place 0 granules) }
{
    for pair in 0..granules / 2 {
        code.push(Instr::St2g {
            simm9: 2 * pair,
            rn: PLACE,
            rt: tag,
        })?;
    }
    if granules % 2 == 1 {
        code.push(Instr::Stg {
            simm9: granules - 1,
            rn: PLACE,
            rt: tag,
        })?;
    }
    Ok(())
}

// Appends the same in a loop of so many pairs a turn, with the rest behind it.
fn push_rounds(code: &mut Vec<Instr>, tag: Reg, pairs: u16, granules: u64) -> Result<(), AllocError>
    requires some { 1 ≤ pairs }
    requires few { pairs ≤ 8 }
    requires reach { granules ≤ 16384 }
    ensures { OnOk result (code.new.items ≡ code.old.items
        ++ tags_in_rounds tag spec.place spec.count pairs (granules / (2 * pairs)) (granules % (2 * pairs))) }
{
    let turn = 2 * pairs;
    code.push(Instr::Movz {
        wide: true,
        hw: 0,
        imm16: (granules / turn as u64) as u16,
        rd: COUNT,
    })?;
    push_granules(code, tag, turn)?;
    push_turn(code, pairs)?;
    push_granules(code, tag, (granules % turn as u64) as u16)
}

// Appends a turn's end: the place behind its granules, one turn less, and back unless none is left.
fn push_turn(code: &mut Vec<Instr>, pairs: u16) -> Result<(), AllocError>
    requires { pairs ≤ 8 }
    ensures { OnOk result (code.new.items ≡ code.old.items ++ loop_end spec.place spec.count pairs) }
{
    code.push(Instr::AddImm {
        wide: true,
        sh: 0,
        imm12: 32 * pairs,
        rn: PLACE,
        rd: PLACE,
    })?;
    code.push(Instr::SubImm {
        wide: true,
        sh: 0,
        imm12: 1,
        rn: COUNT,
        rd: COUNT,
    })?;
    code.push(Instr::Cbnz {
        wide: true,
        imm19: (1 << 19) - (pairs as u32 + 2),
        rt: COUNT,
    })?;
    Ok(())
}

/// Appends, in few instructions: so many granules from the place on get the tag of the source.
pub fn push_shortly(code: &mut Vec<Instr>, granules: u64) -> Result<(), AllocError>
    requires { granules ≤ 16384 }
    ensures { OnOk result (code.new.items ≡ code.old.items ++ tag_shortly spec.source spec.place spec.count granules) }
{
    if granules < 4 {
        push_granules(code, SOURCE, granules as u16)
    } else {
        push_rounds(code, SOURCE, 1, granules)
    }
}

/// Appends, for few steps: so many granules from the place on get the tag of SP.
pub fn push_quickly(code: &mut Vec<Instr>, granules: u64) -> Result<(), AllocError>
    requires { granules ≤ 16384 }
    ensures { OnOk result (code.new.items ≡ code.old.items ++ tag_quickly stack_pointer spec.place spec.count granules) }
{
    if granules < 16 {
        push_granules(code, STACK_POINTER, granules as u16)
    } else {
        push_rounds(code, STACK_POINTER, 8, granules)
    }
}
