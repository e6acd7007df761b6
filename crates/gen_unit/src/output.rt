//! What the code of functions is appended to.

ghost use Rattle.std.specs.Prelude.{◌≡◌, ◌*◌, [], ◌∷◌, IfOk, OnOk, map};
ghost use Rattle.a64_code.specs.Row.{Row};
ghost use Rattle.gen_unit.specs.Appended.{Gains};
ghost use Rattle.gen_unit.specs.Words.{waiting, whole};

use crate::parts::{CodeReloc, CodeTarget};
use a64_code::{Instr, encode};
use std::alloc::AllocError;

/// The words of a unit so far, and those of them that wait for addresses.
#[derive(Drop)]
pub struct Output {
    pub words: Vec<u32>,
    pub relocs: Vec<CodeReloc>,
}

// The word of an instruction. Where it has none, a field is out of range: a branch would go farther than it can, and memory is taken to
// be short.
fn word_of(instr: Instr) -> Result<u32, AllocError>
    ensures { IfOk result (λ word. Row word instr) }
{
    match encode(instr) {
        Some(word) => Ok(word),
        None => Err(AllocError),
    }
}

/// So many words in bytes.
pub fn bytes_of(words: usize) -> Result<u64, AllocError>
    ensures { IfOk result (λ bytes. bytes ≡ 4 * words) }
{
    if words < 1 << 60 {
        Ok(4 * words as u64)
    } else {
        Err(AllocError)
    }
}

/// Appends an instruction.
#[tactic(auto, using(crate::proofs::Gains::gains_one))]
pub fn push(out: &mut Output, instr: Instr) -> Result<(), AllocError>
    ensures { OnOk result (Gains out.old (whole instr ∷ []) out.new) }
{
    let word = word_of(instr)?;
    out.words.push(word)?;
    Ok(())
}

/// Appends an instruction that waits for the address of a symbol.
#[tactic(auto, using(crate::proofs::Gains::gains_waiting))]
pub fn push_waiting(
    out: &mut Output,
    instr: Instr,
    kind: u32,
    target: CodeTarget,
) -> Result<(), AllocError>
    ensures { OnOk result (Gains out.old (waiting instr kind target ∷ []) out.new) }
{
    let offset = bytes_of(out.words.len())?;
    let word = word_of(instr)?;
    out.relocs.push(CodeReloc {
        offset,
        kind,
        target,
        addend: 0,
    })?;
    out.words.push(word)?;
    Ok(())
}

/// Appends some instructions.
#[tactic(auto, using(crate::proofs::Gains::map_turn, crate::proofs::Gains::gains_none))]
pub fn push_all(out: &mut Output, instrs: &[Instr]) -> Result<(), AllocError>
    ensures { OnOk result (Gains out.old (map whole instrs.now) out.new) }
{
    for instr in instrs {
        push(out, *instr)?;
    }
    Ok(())
}
