//! Where values come.

use a64_code::Reg;

/// The register into which a value comes, and the first of the temps that its code may use.
#[derive(Clone, Copy)]
pub struct Destination {
    pub temp: u64,
    pub reg: Reg,
}
