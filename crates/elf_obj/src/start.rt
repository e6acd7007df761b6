ghost use Rattle.std.specs.Prelude.{◌≡◌, ◌≤◌, true, length, take, Some, None, MatchResult, IfOk};
ghost use Rattle.std.specs.Str.{bytes_eq};
ghost use Rattle.elf_base.specs.Conditions.{first_fault};
ghost use Rattle.elf_base.specs.Records.{identification};
ghost use Rattle.elf_obj.specs.ObjectFault.{start_conditions, all_held};

use crate::file::all_held;
use crate::refusal::ObjectRefusal;
use elf_base::{IDENTIFICATION, u16_at};

// The bytes that are there of the identification are as they should be.
fn is_elf(file: &[u8]) -> bool
    ensures { result ≡ bytes_eq (take 16 file.now) (take (length file.now) identification) }
{
    let some = if file.len() < 16 { file.len() } else { 16 };
    &file[..some] == &IDENTIFICATION[..some]
}

// The first condition of the start that fails: an object for this machine, of which no part passes the end.
pub(crate) fn judge_start(file: &[u8]) -> Result<(), ObjectRefusal>
    ensures is { MatchResult result (λ _. first_fault (start_conditions file.now) ≡ None)
        (λ e. first_fault (start_conditions file.now) ≡ Some e) }
    ensures start { IfOk result (λ _. 64 ≤ length file.now) }
    ensures held { IfOk result (λ _. all_held file.now ≡ true) }
{
    let at = file.len() as u64;
    if !is_elf(file) {
        return Err(ObjectRefusal::NotElf);
    }
    if at < 64 {
        return Err(ObjectRefusal::Truncated { at });
    }
    if u16_at(file, 16) != 1 || u16_at(file, 18) != 183 {
        return Err(ObjectRefusal::NotThisMachine);
    }
    if !all_held(file) {
        return Err(ObjectRefusal::Truncated { at });
    }
    Ok(())
}
