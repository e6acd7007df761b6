// Loads and stores of a pair of numbers of 8 bytes.
ghost use Rattle.std.specs.Prelude.{◌≡◌, ℕ, ◌+◌, ◌++◌, true, false};
ghost use Rattle.mt_base.specs.Memory.{load, store, bytes_of};
ghost use Rattle.mt_base.specs.Pointers.{address_of};
ghost use Rattle.a64_code.specs.Access.{pair, access_end};
ghost use Rattle.a64_code.specs.State.{State, with_bytes};
ghost use Rattle.a64_code.specs.Stepped.{unless};
ghost use Rattle.mte_machine.specs.Accesses.{with_memory, gives, Performs};

use crate::memory::judge::{read, write};
use a64_code::MachineEnd;
use tag_mem::TagMemory;

/// The numbers of 8 bytes at the pointer's address and behind these.
#[inline(always)]
pub fn load_pair<M: TagMemory>(
    memory: &M,
    pointer: u64,
    checked: bool,
) -> Result<(u64, u64), MachineEnd>
    ensures { (s : State) → let now = with_memory M.TagMemory memory.now s in
        result ≡ gives (access_end now (pair pointer false checked))
        (load 8 now.byte (address_of pointer), load 8 now.byte (address_of pointer + 8)) }
{
    let mut numbers = [0; 16];
    read(memory, pointer, 8, checked, &mut numbers)?;
    let mut first = [0; 8];
    let mut second = [0; 8];
    first.copy_from_slice(&numbers[..8]);
    second.copy_from_slice(&numbers[8..]);
    Ok((u64::from_le_bytes(first), u64::from_le_bytes(second)))
}

/// Puts two numbers to the pointer's address, 8 bytes each.
#[inline(always)]
pub fn store_pair<M: TagMemory>(
    memory: &mut M,
    pointer: u64,
    first: u64,
    second: u64,
    checked: bool,
) -> Result<(), MachineEnd>
    ensures { (s : State) → let old = with_memory M.TagMemory memory.old s in
        Performs (unless (access_end old (pair pointer true checked))
        (with_bytes (store 8 (store 8 old.byte (address_of pointer) first) (address_of pointer + 8) second) old)) old result
        (with_memory M.TagMemory memory.new s) }
{
    let numbers = bytes_of_pair(first, second);
    write(memory, pointer, 8, checked, &numbers)
}

/// The bytes of two numbers, one behind the other.
#[inline]
fn bytes_of_pair(first: u64, second: u64) -> [u8; 16]
    ensures { result ≡ bytes_of 8 first ++ bytes_of 8 second }
{
    let mut bytes = [0; 16];
    bytes[..8].copy_from_slice(&first.to_le_bytes());
    bytes[8..].copy_from_slice(&second.to_le_bytes());
    bytes
}
