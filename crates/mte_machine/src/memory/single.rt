// Loads and stores of one number.
ghost use Rattle.std.specs.Prelude.{◌≡◌, ℕ, ◌<◌, ◌≤◌, true, false};
ghost use Rattle.mt_base.specs.Memory.{load, store};
ghost use Rattle.mt_base.specs.Pointers.{address_of};
ghost use Rattle.a64_code.specs.Access.{single, access_end};
ghost use Rattle.a64_code.specs.State.{State, with_bytes};
ghost use Rattle.a64_code.specs.Stepped.{unless};
ghost use Rattle.mte_machine.specs.Accesses.{with_memory, gives, Performs};

use crate::memory::judge::{read, write};
use a64_code::MachineEnd;
use tag_mem::TagMemory;

/// The number of 1 to 8 bytes at the pointer's address: `Mem[]` of the Arm ARM.
#[inline(always)]
pub fn load<M: TagMemory>(
    memory: &M,
    pointer: u64,
    bytes: usize,
    checked: bool,
) -> Result<u64, MachineEnd>
    requires some { 0 < bytes }
    requires few { bytes ≤ 8 }
    ensures { (s : State) → let now = with_memory M.TagMemory memory.now s in
        result ≡ gives (access_end now (single bytes pointer false checked)) (load bytes now.byte (address_of pointer)) }
{
    let mut number = [0; 8];
    read(memory, pointer, bytes as u64, checked, &mut number[..bytes])?;
    Ok(u64::from_le_bytes(number))
}

/// Puts the low 1 to 8 bytes of a number to the pointer's address: `Mem[]` of the Arm ARM.
#[inline(always)]
pub fn store<M: TagMemory>(
    memory: &mut M,
    pointer: u64,
    bytes: usize,
    value: u64,
    checked: bool,
) -> Result<(), MachineEnd>
    requires some { 0 < bytes }
    requires few { bytes ≤ 8 }
    ensures { (s : State) → let old = with_memory M.TagMemory memory.old s in
        Performs (unless (access_end old (single bytes pointer true checked))
        (with_bytes (store bytes old.byte (address_of pointer) value) old)) old result (with_memory M.TagMemory memory.new s) }
{
    let number = value.to_le_bytes();
    write(memory, pointer, bytes as u64, checked, &number[..bytes])
}
