// A sink in memory, of a fixed capacity, whose numbered writes can fail.
ghost use Rattle.std.specs.Prelude.{◌≡◌, ◌≢◌, ◌≤◌, ◌<◌, ◌+◌, ◌⊎◌, ◌↔◌, List, [], ℕ, Option, Some, Contains, IfOk, length, vec_len, vec_capacity};
ghost use Rattle.mt_outside.specs.Counts.{one_more};
ghost use Rattle.mt_outside.specs.Sink.{PutGives};

use crate::calls::{Calls, one_more};
use crate::{PutAnswer, Sink};
use std::alloc::{AllocError, Global};

/// A sink in memory. Its calls of `put` are numbered from 0. One whose number stands in `failing`, or that would pass
/// the capacity, answers Failed and takes nothing.
#[derive(Drop)]
pub struct MemSink {
    taken: Vec<u8>,
    capacity: u64,
    calls: Calls,
    faults: u64,
    ghost within: { vec_len taken ≤ capacity },
    ghost allocated: { capacity ≤ vec_capacity taken },
}

impl MemSink {
    ghost use Rattle.mt_outside.specs.MemSink.{sink_taken, sink_capacity, sink_calls, sink_failing, sink_faults};

    /// A sink that can take `capacity` bytes. It takes the memory for all of them now, and none later.
    pub fn new(alloc: Global, capacity: u64, failing: Vec<u64>) -> Result<MemSink, AllocError>
        ensures taken { IfOk result (λ sink. sink_taken sink ≡ []) }
        ensures capacity { IfOk result (λ sink. sink_capacity sink ≡ capacity) }
        ensures calls { IfOk result (λ sink. sink_calls sink ≡ 0) }
        ensures failing { IfOk result (λ sink. sink_failing sink ≡ failing.items) }
        ensures faults { IfOk result (λ sink. sink_faults sink ≡ 0) }
    {
        Ok(MemSink {
            taken: Vec::with_capacity(alloc, capacity as usize)?,
            capacity,
            calls: Calls::new(failing),
            faults: 0,
        })
    }

    /// The bytes taken so far.
    pub fn taken(&self) -> &[u8]
        ensures { result.now ≡ sink_taken self.now }
    {
        &self.taken
    }
}

impl Sink for MemSink {
    ghost use Rattle.mt_outside.specs.MemSink.{sink_taken, sink_capacity, sink_calls, sink_failing, sink_faults};

    ghost told = { λ sink. Some (sink_taken sink) };

    ghost faults = { sink_faults };

    fn put(&mut self, bytes: &[u8]) -> PutAnswer
        ensures content { PutGives bytes.now result (sink_taken self.old) (sink_taken self.new) }

        // It fails exactly where the call's number stands in `failing` or the capacity would be passed. Then it counts
        // and takes nothing.
        ensures fails { (result ≡ PutAnswer.Failed) ↔ (Contains (sink_failing self.old) (sink_calls self.old)
            ⊎ (sink_capacity self.old < length (sink_taken self.old) + length bytes.now)) }
        ensures unchanged { result ≡ PutAnswer.Failed
            → sink_taken self.new ≡ sink_taken self.old }
        ensures counted { result ≡ PutAnswer.Failed
            → sink_faults self.new ≡ one_more (sink_faults self.old) }
        ensures uncounted { result ≢ PutAnswer.Failed
            → sink_faults self.new ≡ sink_faults self.old }

        ensures capacity { sink_capacity self.new ≡ sink_capacity self.old }
        ensures calls { sink_calls self.new ≡ one_more (sink_calls self.old) }
        ensures failing { sink_failing self.new ≡ sink_failing self.old }
    {
        let room = self.capacity - self.taken.len() as u64;
        if self.calls.next_fails() || bytes.len() as u64 > room {
            self.faults = one_more(self.faults);
            return PutAnswer::Failed;
        }
        // All memory was taken at the start.
        self.taken.extend_from_slice(bytes).unwrap();
        PutAnswer::Done
    }
}
