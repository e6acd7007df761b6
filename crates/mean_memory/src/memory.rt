//! The blocks of a program's run.

ghost use Rattle.std.specs.Prelude.{◌≡◌, ◌≢◌, ◌<◌, ◌≤◌, ◌+◌, ◌++◌, List, [], ◌∷◌, length, map, slice_get, Some, None, IfOk, IsTrue};
ghost use Rattle.block_meaning.specs.declared.cell.Cell.TheVariants.{Byte};

use crate::compare::{Ends, compared_by};
use crate::copying::{Part, copy_between, copy_slot};
use crate::judge::{read_in, reason_after, reason_against};
use crate::lookup::{HINTS, found, located};
use crate::owner::{all_before, is_latest, is_latest_of, may_push};
use crate::slot::Slot;
use crate::storing::{store_bytes_slot, store_slot};
use crate::values::null;
use crate::writing::write_slot;
use block_meaning::{Access, Cell, Kind, Pointer, Reason, Value};
use c_ast::BinaryOperator;
use c_type_base::Ty;
use std::alloc::{AllocError, Global};

/// The blocks of a run: those that are alive, and how many there were.
#[derive(Drop)]
pub struct Memory {
    /// In the order of their numbers.
    slots: Vec<Slot>,
    /// The number of the next block.
    next: u64,
    /// Where slots may stand, by the numbers of their blocks modulo `HINTS`.
    hints: Vec<usize>,
}

impl Memory {
    ghost use Rattle.block_meaning.specs.Access as spec;
    ghost use Rattle.block_meaning.specs.Blocks.{Block, block_of, fresh, stored};
    ghost use Rattle.block_meaning.specs.Compare as compare;
    ghost use Rattle.block_meaning.specs.Meaning.{end_call};
    ghost use Rattle.block_meaning.specs.Memory.{copied};
    ghost use Rattle.block_meaning.specs.Values.{cells_of};
    ghost use Rattle.mean_memory.specs.Ends.{end_in};
    ghost use Rattle.mean_memory.specs.Filled.{Fills, Reads};
    ghost use Rattle.mean_memory.specs.Shown.{read_as, ended_if};
    ghost use Rattle.mean_memory.specs.Standing.{IsEnding, IsMemory, IsWritten};

    /// A memory without blocks.
    pub fn new(alloc: Global) -> Result<Memory, AllocError>
        ensures { IfOk result (λ made. IsMemory made []) }
    {
        let hints = vec![in alloc; 0; HINTS]?;
        Ok(Memory {
            slots: Vec::new(alloc),
            next: 0,
            hints,
        })
    }

    /// The allocator that it was made with.
    pub fn allocator(&self) -> Global {
        *self.slots.allocator()
    }

    /// Reads a scalar of a type, or tells why that is undefined.
    pub fn read(&mut self, ty: &Ty, a: Access) -> Result<Value, Reason>
        requires { Reads ty.now a.size }
        ensures is { (blocks : List Block) (b : Block) → IsMemory self.old blocks → slice_get blocks a.at.block ≡ Some b
            → read_as result ≡ spec.read_in b ty.now a }
        ensures kept { (blocks : List Block) → IsMemory self.old blocks → IsMemory self.new blocks }
    {
        match found(&self.slots, &mut self.hints, a.at.block) {
            Some(slot) => read_in(slot, ty, a),
            None => Err(reason_after(a)),
        }
    }

    /// Why an access is undefined, but for what the cells hold.
    pub fn judged(&mut self, a: Access) -> Option<Reason>
        ensures is { (blocks : List Block) (b : Block) → IsMemory self.old blocks → slice_get blocks a.at.block ≡ Some b
            → result ≡ spec.reason_against b a }
        ensures kept { (blocks : List Block) → IsMemory self.old blocks → IsMemory self.new blocks }
    {
        match found(&self.slots, &mut self.hints, a.at.block) {
            Some(slot) => reason_against(slot, a),
            None => Some(reason_after(a)),
        }
    }

    /// The size of a block, if it is alive.
    pub fn end_of(&mut self, number: u64) -> Option<u64>
        ensures is { (blocks : List Block) → IsMemory self.old blocks → result ≡ end_in blocks number }
        ensures kept { (blocks : List Block) → IsMemory self.old blocks → IsMemory self.new blocks }
    {
        match found(&self.slots, &mut self.hints, number) {
            Some(slot) => Some(slot.cells.len() as u64),
            None => None,
        }
    }

    /// Makes a block, and tells its number. A local of an earlier call than the latest block's finds no memory.
    pub fn push(&mut self, kind: Kind, cells: Vec<Cell>) -> Result<u64, AllocError>
        ensures { IfOk result (λ number. (blocks : List Block) → IsMemory self.old blocks
            → (number ≡ length blocks) × IsMemory self.new (blocks ++ block_of kind cells.items ∷ [])) }
    {
        let number = self.next;
        let Some(next) = number.checked_add(1) else {
            return Err(AllocError);
        };
        if !may_push(&self.slots, kind) {
            return Err(AllocError);
        }
        self.slots.push(Slot {
            number,
            kind,
            cells,
        })?;
        self.next = next;
        Ok(number)
    }

    /// Makes a block of so many bytes that were never written, and tells its number.
    pub fn push_fresh(&mut self, kind: Kind, bytes: u64) -> Result<u64, AllocError>
        ensures { IfOk result (λ number. (blocks : List Block) → IsMemory self.old blocks
            → (number ≡ length blocks) × IsMemory self.new (blocks ++ fresh kind bytes ∷ [])) }
    {
        let alloc = *self.slots.allocator();
        let cells = vec![in alloc; Cell::Nothing; bytes as usize]?;
        self.push(kind, cells)
    }

    /// The latest block ends, if it is a local that has this number. Else nothing changes.
    pub fn pop_local(&mut self, number: u64) -> bool
        ensures { (blocks : List Block) → IsMemory self.old blocks → IsMemory self.new (ended_if result number blocks) }
    {
        if is_latest(&self.slots, number) {
            self.slots.pop();
            true
        } else {
            false
        }
    }

    /// The latest block ends, if it belongs to a call.
    fn pop_of(&mut self, call: u64) -> bool
        ensures ends { (blocks : List Block) → IsMemory self.old blocks → IsEnding self.new call blocks }
        ensures fewer { IsTrue result → length self.new.slots.items < length self.old.slots.items }
    {
        if is_latest_of(&self.slots, call) {
            self.slots.pop();
            true
        } else {
            false
        }
    }

    /// All blocks of a call end, where no block of a later one is alive: true, and else some of them may have ended.
    pub fn end_call(&mut self, call: u64) -> bool
        ensures { IsTrue result → (blocks : List Block) → IsMemory self.old blocks → IsMemory self.new (end_call call blocks) }
    {
        while self.pop_of(call) {}
        all_before(&self.slots, call)
    }

    /// Writes a scalar of a type, or tells why that is undefined.
    pub fn write(&mut self, ty: &Ty, a: Access, v: Value) -> Option<Reason>
        requires { Fills ty.now a.size }
        ensures { (blocks : List Block) (b : Block) → IsMemory self.old blocks → slice_get blocks a.at.block ≡ Some b
            → IsWritten self.new a (cells_of ty.now v) b blocks result }
    {
        let Some(index) = located(&self.slots, &mut self.hints, a.at.block) else {
            return Some(reason_after(a));
        };
        write_slot(&mut self.slots[index], ty, a, v)
    }

    /// Stores cells from a place on, where the block is alive and has room for them: true, and else nothing changes.
    pub fn store(&mut self, at: Pointer, cells: &[Cell]) -> bool
        ensures { IsTrue result → (blocks : List Block) → IsMemory self.old blocks → IsMemory self.new (stored at cells.now blocks) }
    {
        let Some(index) = located(&self.slots, &mut self.hints, at.block) else {
            return false;
        };
        store_slot(&mut self.slots[index], at.offset, cells)
    }

    /// Stores bytes likewise.
    pub fn store_bytes(&mut self, at: Pointer, bytes: &[u8]) -> bool
        ensures { IsTrue result → (blocks : List Block) → IsMemory self.old blocks
            → IsMemory self.new (stored at (map Byte bytes.now) blocks) }
    {
        let Some(index) = located(&self.slots, &mut self.hints, at.block) else {
            return false;
        };
        store_bytes_slot(&mut self.slots[index], at.offset, bytes)
    }

    /// Copies so many cells from one place to another, where both are in blocks that are alive: true, and else nothing changes.
    pub fn copy(&mut self, source: Pointer, target: Pointer, bytes: u64) -> bool
        ensures { IsTrue result → (blocks : List Block) → IsMemory self.old blocks
            → IsMemory self.new (copied source target bytes blocks) }
    {
        let Some(from) = located(&self.slots, &mut self.hints, source.block) else {
            return false;
        };
        let Some(to) = located(&self.slots, &mut self.hints, target.block) else {
            return false;
        };
        let part = Part {
            source: source.offset,
            target: target.offset,
            bytes,
        };
        if from == to {
            copy_slot(&mut self.slots[to], part)
        } else {
            copy_between(&mut self.slots, from, to, part)
        }
    }

    /// Compares two pointers; none is a comparison that is undefined.
    pub fn compared(&mut self, operator: BinaryOperator, p: Pointer, q: Pointer) -> Option<bool>
        ensures is { (blocks : List Block) → IsMemory self.old blocks → result ≡ compare.compared blocks operator p q }
        ensures kept { (blocks : List Block) → IsMemory self.old blocks → IsMemory self.new blocks }
    {
        let first = self.end_of(p.block);
        let second = self.end_of(q.block);
        compared_by(operator, p, q, Ends { first, second })
    }

    /// A pointer as a condition.
    pub fn pointer_truth(&mut self, p: Pointer) -> Option<bool>
        ensures is { (blocks : List Block) → IsMemory self.old blocks → result ≡ compare.pointer_truth blocks p }
        ensures kept { (blocks : List Block) → IsMemory self.old blocks → IsMemory self.new blocks }
    {
        self.compared(BinaryOperator::NotEqual, p, null())
    }
}
