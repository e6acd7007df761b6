use crate::line::line_of;
use crate::operand::Operand;
use a64_code::Instr;
use std::fmt;

/// An instruction as a line of assembly, by its architectural name and not by an alias. (Arm ARM, C6.2)
#[derive(Clone, Copy)]
pub struct Assembly(pub Instr);

impl fmt::Display for Assembly {
    fn fmt<W: fmt::Write>(&self, f: &mut fmt::Formatter<W>) -> fmt::Result {
        let line = line_of(self.0);
        f.write_str(line.mnemonic)?;
        let mut before = " ";
        for operand in &line.operands {
            if !matches!(operand, Operand::None) {
                write!(f, "{before}{operand}")?;
                before = ", ";
            }
        }
        Ok(())
    }
}
