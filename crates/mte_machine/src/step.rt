// What one step does.

use a64_code::MachineEnd;

/// What one step does.
#[derive(Clone, Copy, PartialEq, Eq)]
pub enum Step {
    /// It ran, and the machine stands at the next instruction or at the target of a branch.
    Ran,
    /// It ended the run, and the machine is as before it.
    Ended(MachineEnd),
}
