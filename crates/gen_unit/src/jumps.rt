//! Jumps to places, which are counted in words from a function's start.

ghost use Rattle.std.specs.Prelude.{◌≡◌, ℕ, ◌+◌, ◌^◌, ◌<◌, [], ◌∷◌, OnOk, map, not, true};
ghost use Rattle.a64_laws.specs.Branches.{Always, branch_of, field, jump_instr};
ghost use Rattle.gen_unit.specs.Appended.{Gains, on};
ghost use Rattle.gen_unit.specs.Words.{branch_words, way, whole};

use crate::output::{Output, push};
use a64_code::{Instr, Reg};
use std::alloc::AllocError;

// The field of a branch, which has so many values.
fn words_to(from: u32, to: u32, values: u32) -> u32
    ensures { (bits : ℕ) → values ≡ 2 ^ bits → result ≡ field bits (way from to) }
{
    if from <= to {
        to - from
    } else {
        values.saturating_sub(from - to)
    }
}

// The jump from one place to another.
fn jump(at: u32, to: u32) -> Instr
    ensures { result ≡ jump_instr Always (way at to) }
{
    Instr::B {
        imm26: words_to(at, to, 1 << 26),
    }
}

/// Appends a jump that stands at one place and goes to another.
pub fn push_jump(out: &mut Output, at: u32, to: u32) -> Result<(), AllocError>
    ensures { OnOk result (Gains out.old (whole (jump_instr Always (way at to)) ∷ []) out.new) }
{
    push(out, jump(at, to))
}

// The branch so many words on where a register is zero, or where it is not.
fn branch(zero: bool, reg: Reg, words: u32) -> Instr
    ensures { result ≡ branch_of (on zero reg) words }
{
    if zero {
        Instr::Cbz {
            wide: true,
            imm19: words,
            rt: reg,
        }
    } else {
        Instr::Cbnz {
            wide: true,
            imm19: words,
            rt: reg,
        }
    }
}

// Appends the branch, in one instruction.
fn push_near(out: &mut Output, zero: bool, reg: Reg, at: u32, to: u32) -> Result<(), AllocError>
    ensures { OnOk result (Gains out.old (whole (jump_instr (on zero reg) (way at to)) ∷ []) out.new) }
{
    push(out, branch(zero, reg, words_to(at, to, 1 << 19)))
}

// Appends the branch as a jump that the contrary branch passes.
fn push_far(out: &mut Output, zero: bool, reg: Reg, at: u32, to: u32) -> Result<(), AllocError>
    requires { at < 2 ^ 25 }
    ensures { OnOk result (Gains out.old (map whole (branch_words true (on zero reg) (on (not zero) reg) at to)) out.new) }
{
    push(out, branch(!zero, reg, 2))?;
    push_jump(out, at + 1, to)
}

/// Appends the branch to a place where all 64 bits of a register are zero, or where they are not, in code that is long or not.
pub fn push_branch(
    out: &mut Output,
    long: bool,
    zero: bool,
    reg: Reg,
    at: u32,
    to: u32,
) -> Result<(), AllocError>
    requires { at < 2 ^ 25 }
    ensures { OnOk result (Gains out.old (map whole (branch_words long (on zero reg) (on (not zero) reg) at to)) out.new) }
{
    if long {
        push_far(out, zero, reg, at, to)
    } else {
        push_near(out, zero, reg, at, to)
    }
}
