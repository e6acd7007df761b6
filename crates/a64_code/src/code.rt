ghost use Rattle.std.specs.Prelude.{◌≡◌, ◌↔◌, ℕ, IfSome, IfNone};
ghost use Rattle.a64_code.specs.Row.{Row, HasOneRow};
ghost use Rattle.a64_code.specs.Instruction.{instruction_of};

use crate::find::row_of;
use crate::instr::Instr;

/// The word of an instruction; None exactly where a field is out of its row's range.
pub fn encode(instr: Instr) -> Option<u32>
    ensures row { (word : ℕ) → ((result ≡ Some word) ↔ Row word instr) }
    ensures none { IfNone result ((word : ℕ) → ¬ Row word instr) }
{
    let parts = instr.parts();
    parts.line.word(parts.wide, parts.values)
}

/// The instruction of a word; None exactly where no row fits.
pub fn decode(word: u32) -> Option<Instr>
    ensures row { (instr : Instr) → ((result ≡ Some instr) ↔ Row word instr) }
    ensures none { IfNone result ((instr : Instr) → ¬ Row word instr) }
    ensures one_row { HasOneRow word }
    ensures instruction { result ≡ instruction_of word }
{
    let row = row_of(word)?;
    Some(row.blank.reading(word))
}
