// Loads and stores of tags. They are not checked: a tag instruction may touch a granule of any tag.
ghost use Rattle.std.specs.Prelude.{◌≡◌, ◌≢◌, ℕ, ◌+◌, ◌*◌, ◌%◌, ◌^◌, ◌<◌, true, false};
ghost use Rattle.mt_base.specs.Granules.{granule_of};
ghost use Rattle.mt_base.specs.Memory.{store};
ghost use Rattle.mt_base.specs.Pointers.{address_of};
ghost use Rattle.tag_mem.specs.Answers.{write_answer};
ghost use Rattle.a64_code.specs.Access.{tag_store, tag_load, access_end};
ghost use Rattle.a64_code.specs.State.{State, with_bytes, tagged, with_tags};
ghost use Rattle.a64_code.specs.Stepped.{unless};
ghost use Rattle.mte_machine.specs.Accesses.{with_memory, gives, Performs, end_of_answer, granules};

use crate::memory::judge::{end_at, write_back};
use a64_code::MachineEnd;
use mt_base::{Tag, address_of};
use tag_mem::{Access, TagMemory};

/// The tag of the granule that the pointer's address is in: `AArch64.MemTag[]` of the Arm ARM.
pub fn load_tag<M: TagMemory>(memory: &M, pointer: u64) -> Result<Tag, MachineEnd>
    ensures { (s : State) → let now = with_memory M.TagMemory memory.now s in
        result ≡ gives (access_end now (tag_load pointer)) (now.tag (granule_of (address_of pointer))) }
{
    let at = address_of(pointer);
    let mut granule = [0; 16];
    let answer = memory.read(at / 16 * 16, &mut granule);
    end_at(answer, at)?;
    match memory.tag(at) {
        Some(tag) => Ok(tag),
        None => unreachable!(),
    }
}

/// Gives one granule, or two, a tag: that at the pointer's address and the next one.
pub fn tag_granules<M: TagMemory>(
    memory: &mut M,
    pointer: u64,
    two: bool,
    tag: Tag,
) -> Result<(), MachineEnd>
    ensures { (s : State) → let old = with_memory M.TagMemory memory.old s in
        Performs (unless (access_end old (tag_store (granules two) pointer))
        (with_tags (tagged (granules two) old.tag (address_of pointer) tag) old)) old result (with_memory M.TagMemory memory.new s) }
{
    let at = address_of(pointer);
    if at % 16 != 0 {
        return Err(MachineEnd::AlignFault { at });
    }
    // all granules have to be writable before the tag of the first one changes
    let answer = write_again(memory, at, two);
    end_at(answer, at)?;
    set_tags(memory, at, two, tag);
    Ok(())
}

/// Gives them a tag and zeros for bytes.
pub fn clear_granules<M: TagMemory>(
    memory: &mut M,
    pointer: u64,
    two: bool,
    tag: Tag,
) -> Result<(), MachineEnd>
    ensures { (s : State) → let old = with_memory M.TagMemory memory.old s in
        Performs (unless (access_end old (tag_store (granules two) pointer))
        (with_bytes (store (16 * granules two) old.byte (address_of pointer) 0)
        (with_tags (tagged (granules two) old.tag (address_of pointer) tag) old))) old result (with_memory M.TagMemory memory.new s) }
{
    let at = address_of(pointer);
    if at % 16 != 0 {
        return Err(MachineEnd::AlignFault { at });
    }
    let answer = write_zeros(memory, at, two);
    end_at(answer, at)?;
    set_tags(memory, at, two, tag);
    Ok(())
}

/// What comes of writing the bytes of one granule, or of two, as they stand there.
fn write_again<M: TagMemory>(memory: &mut M, at: u64, two: bool) -> Access
    ensures answer { result ≡ write_answer (M.regions memory.old) (M.guard memory.old) at (16 * granules two) }
    ensures same { (s : State) → with_memory M.TagMemory memory.new s ≡ with_memory M.TagMemory memory.old s }
{
    if two {
        write_back(memory, at, &mut [0; 32])
    } else {
        write_back(memory, at, &mut [0; 16])
    }
}

/// What comes of writing zeros for them.
fn write_zeros<M: TagMemory>(memory: &mut M, at: u64, two: bool) -> Access
    ensures answer { result ≡ write_answer (M.regions memory.old) (M.guard memory.old) at (16 * granules two) }
    ensures done { result ≡ Access.Done → M.byte memory.new ≡ store (16 * granules two) (M.byte memory.old) at 0 }
    ensures refused { result ≢ Access.Done → M.byte memory.new ≡ M.byte memory.old }
    ensures same_tags { M.tags memory.new ≡ M.tags memory.old }
    ensures same_regions { M.regions memory.new ≡ M.regions memory.old }
    ensures same_guard { M.guard memory.new ≡ M.guard memory.old }
{
    if two {
        memory.write(at, &[0; 32])
    } else {
        memory.write(at, &[0; 16])
    }
}

/// Sets the tag of the granule at the address, whose bytes may be written.
fn set_a_tag<M: TagMemory>(memory: &mut M, at: u64, tag: Tag)
    requires whole { at % 16 ≡ 0 }
    requires writable { write_answer (M.regions memory.old) (M.guard memory.old) at 16 ≡ Access.Done }
    ensures { (s : State) → let old = with_memory M.TagMemory memory.old s in
        with_memory M.TagMemory memory.new s ≡ with_tags (tagged 1 old.tag at tag) old }
{
    memory.set_tag(at, tag);
}

/// Sets the tags of one granule, or of two, whose bytes may be written.
fn set_tags<M: TagMemory>(memory: &mut M, at: u64, two: bool, tag: Tag)
    requires whole { at % 16 ≡ 0 }
    requires low { at < 2 ^ 56 }
    requires writable { write_answer (M.regions memory.old) (M.guard memory.old) at (16 * granules two) ≡ Access.Done }
    ensures { (s : State) → let old = with_memory M.TagMemory memory.old s in
        with_memory M.TagMemory memory.new s ≡ with_tags (tagged (granules two) old.tag at tag) old }
{
    set_a_tag(memory, at, tag);
    if two {
        set_a_tag(memory, at + 16, tag);
    }
}
