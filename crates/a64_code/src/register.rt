ghost use Rattle.std.specs.Prelude.{◌≡◌};
ghost use Rattle.a64_code.specs.StackPointer.{takes_sp};

use crate::instr::Instr;

/// A field of an instruction that holds a register.
#[derive(Clone, Copy)]
pub enum RegisterField {
    Rd,
    Rn,
    Rm,
    Ra,
    Rt,
    Rt2,
}

impl Instr {
    /// Whether number 31 in this field is the stack pointer. Elsewhere it reads as zero, and what is written to it is dropped.
    pub fn takes_sp(self, field: RegisterField) -> bool
        ensures { result ≡ takes_sp self field }
    {
        let (a, b, c, d) = self.parts().line.places;
        a.is_sp(field) || b.is_sp(field) || c.is_sp(field) || d.is_sp(field)
    }
}
