// A source of bytes: what it answers, and what it has left.
ghost use Rattle.std.specs.Prelude.{◌≡◌, ◌≢◌, ◌≤◌, List, ℕ, Option};
ghost use Rattle.mt_outside.specs.Told.{Rose, WhereTold};
ghost use Rattle.mt_outside.specs.Source.{NextGives};

/// What a source answers.
#[derive(Clone, Copy)]
pub enum NextAnswer {
    /// The first byte that was left, which is now taken.
    Byte(u8),
    /// No byte is left.
    End,
    /// The read failed, and was counted. Nothing was taken.
    Failed,
}

/// A source of bytes. Its meaning is the list of the bytes left.
pub trait Source {
    /// The bytes left, where the object tells them.
    ghost told: { Self → Option (List ℕ) };

    /// How many reads have failed.
    ghost faults: { Self → ℕ };

    /// Takes the next byte. A call that did not fail leaves the count.
    fn next(&mut self) -> NextAnswer
        ensures content { WhereTold (told self.old) (told self.new) (NextGives result) }
        ensures failed { result ≡ NextAnswer.Failed → Rose (faults self.old) (faults self.new) }
        ensures uncounted { result ≢ NextAnswer.Failed → faults self.new ≡ faults self.old }
        ensures never_falls { faults self.old ≤ faults self.new };
}
