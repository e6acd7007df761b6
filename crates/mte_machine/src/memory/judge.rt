// How an access is judged: alignment, guard, regions with their rights, and tags, in this order.
ghost use Rattle.std.specs.Prelude.{◌≡◌, ℕ, ◌+◌, ◌<◌, ◌≤◌, true, false, length};
ghost use Rattle.mt_base.specs.Granules.{granule_of};
ghost use Rattle.mt_base.specs.Memory.{is_mapped, every_byte, bytes_at, store_bytes};
ghost use Rattle.mt_base.specs.Pointers.{address_of};
ghost use Rattle.tag_mem.specs.Answers.{write_answer};
ghost use Rattle.a64_code.specs.Access.{tag_fault_at, access_end};
ghost use Rattle.a64_code.specs.State.{State, with_bytes};
ghost use Rattle.a64_code.specs.Stepped.{unless};
ghost use Rattle.mte_machine.specs.Accesses.{with_memory, gives, fails, Performs, touching, end_of_answer, end_of_tags};

use a64_code::MachineEnd;
use mt_base::{address_of, tag_of};
use tag_mem::{Access, TagMemory};

/// Reads the bytes at the pointer's address, which has to be a multiple of the unit.
#[inline(always)]
pub fn read<M: TagMemory>(
    memory: &M,
    pointer: u64,
    unit: u64,
    checked: bool,
    out: &mut [u8],
) -> Result<(), MachineEnd>
    requires unit { 0 < unit }
    requires some { 0 < length out.old }
    requires few { length out.old ≤ 32 }
    ensures answer { (s : State) → result
        ≡ gives (access_end (with_memory M.TagMemory memory.now s) (touching pointer unit (length out.old) false checked)) tt }
    ensures done { result ≡ Ok tt → out.new ≡ bytes_at (length out.old) (M.byte memory.now) (address_of pointer) }
{
    let at = address_of(pointer);
    if at % unit != 0 {
        return Err(MachineEnd::AlignFault { at });
    }
    let answer = memory.read(at, out);
    end_at(answer, at)?;
    compare_tags(memory, pointer, out.len(), checked)
}

/// Writes the bytes to the pointer's address, which has to be a multiple of the unit.
#[inline(always)]
pub fn write<M: TagMemory>(
    memory: &mut M,
    pointer: u64,
    unit: u64,
    checked: bool,
    bytes: &[u8],
) -> Result<(), MachineEnd>
    requires unit { 0 < unit }
    requires some { 0 < length bytes.now }
    requires few { length bytes.now ≤ 32 }
    ensures { (s : State) → let old = with_memory M.TagMemory memory.old s in
        Performs (unless (access_end old (touching pointer unit (length bytes.now) true checked))
        (with_bytes (store_bytes old.byte (address_of pointer) bytes.now) old)) old result (with_memory M.TagMemory memory.new s) }
{
    let at = address_of(pointer);
    if at % unit != 0 {
        return Err(MachineEnd::AlignFault { at });
    }
    match compare_tags(memory, pointer, bytes.len(), checked) {
        Ok(()) => {
            let answer = memory.write(at, bytes);
            end_at(answer, at)
        }
        Err(fault) => refuse(memory, at, bytes.len(), fault),
    }
}

/// How an access to so many bytes ends that writes and whose tags do not match: by this fault, unless guard, regions or
/// rights come first.
#[inline(never)]
fn refuse<M: TagMemory>(
    memory: &mut M,
    at: u64,
    count: usize,
    fault: MachineEnd,
) -> Result<(), MachineEnd>
    requires { count ≤ 32 }
    ensures ends { result ≡ fails (end_of_answer (write_answer (M.regions memory.old) (M.guard memory.old) at count) at) fault }
    ensures same { (s : State) → with_memory M.TagMemory memory.new s ≡ with_memory M.TagMemory memory.old s }
{
    let mut bytes = [0; 32];
    let answer = write_back(memory, at, &mut bytes[..count]);
    end_at(answer, at)?;
    Err(fault)
}

/// What comes of writing as many bytes as `bytes` has from the address on. Those that stand there are written, so nothing
/// changes.
pub fn write_back<M: TagMemory>(memory: &mut M, at: u64, bytes: &mut [u8]) -> Access
    ensures answer { result ≡ write_answer (M.regions memory.old) (M.guard memory.old) at (length bytes.old) }
    ensures same { (s : State) → with_memory M.TagMemory memory.new s ≡ with_memory M.TagMemory memory.old s }
{
    match memory.read(at, bytes) {
        Access::Done => memory.write(at, bytes),
        refused => refused,
    }
}

/// What the answer of a memory makes of an access, where the pointer's address is `at`.
#[inline]
pub fn end_at(answer: Access, at: u64) -> Result<(), MachineEnd>
    ensures { result ≡ gives (end_of_answer answer at) tt }
{
    match answer {
        Access::Done => Ok(()),
        Access::Guard => Err(MachineEnd::StackFault),
        Access::Unmapped => Err(MachineEnd::MemoryFault { at }),
        Access::Protected => Err(MachineEnd::MemoryFault { at }),
    }
}

/// Judges the tags of an access to so many bytes, all of which are in regions: those of the granules of the first byte
/// and of the last one, and nothing where the access is not checked.
#[inline(always)]
fn compare_tags<M: TagMemory>(
    memory: &M,
    pointer: u64,
    count: usize,
    checked: bool,
) -> Result<(), MachineEnd>
    requires some { 0 < count }
    requires few { count ≤ 32 }
    ensures { (s : State) → every_byte (is_mapped (M.regions memory.now)) (address_of pointer) count ≡ true →
        result ≡ gives (end_of_tags checked (with_memory M.TagMemory memory.now s) pointer count) tt }
{
    if !checked {
        return Ok(());
    }
    let first = address_of(pointer);
    let last = first + (count as u64 - 1);
    compare_tag(memory, pointer, first)?;
    if first / 16 == last / 16 {
        return Ok(());
    }
    compare_tag(memory, pointer, last)
}

/// Whether the pointer's tag is that of the granule of this address, which is in a region.
#[inline(always)]
fn compare_tag<M: TagMemory>(memory: &M, pointer: u64, at: u64) -> Result<(), MachineEnd>
    ensures { (s : State) → is_mapped (M.regions memory.now) at ≡ true →
        result ≡ gives (tag_fault_at (with_memory M.TagMemory memory.now s) pointer (granule_of at)) tt }
{
    let Some(memory_tag) = memory.tag(at) else {
        return Ok(());
    };
    let pointer_tag = tag_of(pointer);
    if pointer_tag == memory_tag {
        return Ok(());
    }
    Err(MachineEnd::TagFault {
        at: address_of(pointer),
        pointer_tag,
        memory_tag,
    })
}
