// Files by their names: what a read and a write answer, and what they leave.
ghost use Rattle.std.specs.Prelude.{◌≡◌, ◌≢◌, ◌≤◌, List, ℕ, Option, IfSome};
ghost use Rattle.mt_outside.specs.Told.{Rose, WhereTold};
ghost use Rattle.mt_outside.specs.Files.{Contents, ReadGives, WriteGives};

use std::alloc::Global;

/// What the read of a name answers.
#[derive(Drop)]
pub enum ReadAnswer {
    /// The bytes of the name.
    Got(Vec<u8>),
    /// There is no such name.
    Absent,
    /// The read failed, and was counted.
    Failed,
    /// The bytes found no memory.
    NoMemory,
}

/// What the write of a name answers.
#[derive(Clone, Copy)]
pub enum WriteAnswer {
    /// The name holds exactly the bytes that were written.
    Done,
    /// The write failed, and was counted. What the name holds is open.
    Failed,
    /// The bytes found no memory. Nothing has changed.
    NoMemory,
}

/// Files by their names. Their meaning is a map from names to bytes.
pub trait Files {
    /// The map, where the object tells it.
    ghost told: { Self → Option Contents };

    /// How many reads have failed.
    ghost read_faults: { Self → ℕ };

    /// How many writes have failed.
    ghost write_faults: { Self → ℕ };

    /// The bytes of a name. The map stays as it was. A read that did not fail leaves both counts.
    fn read(&mut self, alloc: Global, name: &str) -> ReadAnswer
        ensures content { IfSome (told self.old) (λ files. ReadGives files name.now result) }
        ensures kept { told self.new ≡ told self.old }
        ensures failed { result ≡ ReadAnswer.Failed → Rose (read_faults self.old) (read_faults self.new) }
        ensures uncounted { result ≢ ReadAnswer.Failed → read_faults self.new ≡ read_faults self.old }
        ensures never_falls { read_faults self.old ≤ read_faults self.new }
        ensures writes { write_faults self.new ≡ write_faults self.old };

    /// Gives a name these bytes. All other names keep theirs. A write that did not fail leaves both counts.
    fn write(&mut self, name: &str, bytes: &[u8]) -> WriteAnswer
        ensures content { WhereTold (told self.old) (told self.new) (WriteGives name.now bytes.now result) }
        ensures failed { result ≡ WriteAnswer.Failed → Rose (write_faults self.old) (write_faults self.new) }
        ensures uncounted { result ≢ WriteAnswer.Failed → write_faults self.new ≡ write_faults self.old }
        ensures never_falls { write_faults self.old ≤ write_faults self.new }
        ensures reads { read_faults self.new ≡ read_faults self.old };
}
