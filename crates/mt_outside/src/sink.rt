// A sink of bytes: what it answers, and what it has taken.
ghost use Rattle.std.specs.Prelude.{◌≡◌, ◌≢◌, ◌≤◌, List, ℕ, Option};
ghost use Rattle.mt_outside.specs.Told.{Rose, WhereTold};
ghost use Rattle.mt_outside.specs.Sink.{PutGives};

/// What a sink answers.
#[derive(Clone, Copy)]
pub enum PutAnswer {
    /// All bytes were taken.
    Done,
    /// The write failed, and was counted. A prefix of the bytes was taken.
    Failed,
}

/// A sink of bytes. Its meaning is the list of the bytes taken.
pub trait Sink {
    /// The bytes taken, where the object tells them.
    ghost told: { Self → Option (List ℕ) };

    /// How many writes have failed.
    ghost faults: { Self → ℕ };

    /// Puts these bytes after those that were taken before. A call that did not fail leaves the count.
    fn put(&mut self, bytes: &[u8]) -> PutAnswer
        ensures content { WhereTold (told self.old) (told self.new) (PutGives bytes.now result) }
        ensures failed { result ≡ PutAnswer.Failed → Rose (faults self.old) (faults self.new) }
        ensures uncounted { result ≢ PutAnswer.Failed → faults self.new ≡ faults self.old }
        ensures never_falls { faults self.old ≤ faults self.new };
}
