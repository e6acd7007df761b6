// The code of a program that returns a constant.
ghost use Rattle.std.specs.Prelude.{◌≡◌, ◌≤◌, ℕ, [], ◌∷◌, ◌++◌, IfOk, OnOk};
ghost use Rattle.a64_code.specs.Field.{AllFit};
ghost use Rattle.a64_code.specs.Row.{Row};
ghost use Rattle.a64_code.specs.Table.{encoding};
ghost use Rattle.elf_image.specs.Constant.{constant_code};

use a64_code::{Instr, Reg, encode};
use std::alloc::{AllocError, Global};

/// The register that holds the status at the end.
const STATUS: Reg = Reg(0);

/// The service that ends the program.
const EXIT: u16 = 3;

/// The words of a program that returns a constant: its halves into register 0, of which the upper one is left out where
/// it is zero, and the service that ends the program.
pub fn words_of(alloc: Global, n: u32) -> Result<Vec<u32>, AllocError>
    requires { n ≤ 2147483647 }
    ensures { IfOk result (λ words. words.items ≡ constant_code n) }
{
    let mut words = Vec::new(alloc);
    let low = Instr::Movz {
        wide: false,
        hw: 0,
        imm16: (n % 0x1_0000) as u16,
        rd: STATUS,
    };
    put(&mut words, low)?;
    if n > 0xffff {
        let high = Instr::Movk {
            wide: false,
            hw: 1,
            imm16: (n / 0x1_0000) as u16,
            rd: STATUS,
        };
        put(&mut words, high)?;
    }
    put(&mut words, Instr::Svc { imm16: EXIT })?;
    Ok(words)
}

// One more instruction.
#[tactic(auto, using(crate::proofs::Encoded::has_word))]
fn put(words: &mut Vec<u32>, instr: Instr) -> Result<(), AllocError>
    requires { AllFit (encoding instr).fields }
    ensures { OnOk result ((word : ℕ) × Row word instr × (words.new.items ≡ words.old.items ++ word ∷ [])) }
{
    words.push(encode(instr).unwrap())?;
    Ok(())
}
