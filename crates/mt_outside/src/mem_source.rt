// A source in memory, whose numbered reads can fail.
ghost use Rattle.std.specs.Prelude.{◌≡◌, ◌≢◌, ◌↔◌, List, ℕ, Option, Some, Contains};
ghost use Rattle.mt_outside.specs.Counts.{one_more};
ghost use Rattle.mt_outside.specs.Source.{NextGives};
ghost use Rattle.mt_outside.specs.MemSource.{source_left, source_calls, source_failing, source_faults};

use crate::calls::{Calls, one_more};
use crate::{NextAnswer, Source};

/// A source in memory. Its calls of `next` are numbered from 0, and one whose number stands in `failing` answers Failed.
#[derive(Drop)]
pub struct MemSource {
    bytes: Vec<u8>,
    taken: usize,
    calls: Calls,
    faults: u64,
}

impl MemSource {
    /// A source of these bytes.
    pub fn new(bytes: Vec<u8>, failing: Vec<u64>) -> MemSource
        ensures left { source_left result ≡ bytes.items }
        ensures calls { source_calls result ≡ 0 }
        ensures failing { source_failing result ≡ failing.items }
        ensures faults { source_faults result ≡ 0 }
    {
        MemSource {
            bytes,
            taken: 0,
            calls: Calls::new(failing),
            faults: 0,
        }
    }
}

impl Source for MemSource {
    ghost told = { λ source. Some (source_left source) };

    ghost faults = { source_faults };

    fn next(&mut self) -> NextAnswer
        ensures content { NextGives result (source_left self.old) (source_left self.new) }

        // It fails exactly where the call's number stands in `failing`, and then alone it counts.
        ensures fails { (result ≡ NextAnswer.Failed) ↔
            Contains (source_failing self.old) (source_calls self.old) }
        ensures counted { result ≡ NextAnswer.Failed
            → source_faults self.new ≡ one_more (source_faults self.old) }
        ensures uncounted { result ≢ NextAnswer.Failed
            → source_faults self.new ≡ source_faults self.old }

        ensures calls { source_calls self.new ≡ one_more (source_calls self.old) }
        ensures failing { source_failing self.new ≡ source_failing self.old }
    {
        if self.calls.next_fails() {
            self.faults = one_more(self.faults);
            return NextAnswer::Failed;
        }
        if self.taken >= self.bytes.len() {
            return NextAnswer::End;
        }
        let byte = self.bytes[self.taken];
        self.taken += 1;
        NextAnswer::Byte(byte)
    }
}
