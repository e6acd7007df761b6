// The instructions of words that were decoded before.
ghost use Rattle.std.specs.Prelude.{◌≡◌, ◌<◌};
ghost use Rattle.std.specs.List.{All};
ghost use Rattle.a64_code.specs.Instruction.{instruction_of};
ghost use Rattle.mte_machine.specs.Decoded.{IsDecoded};

use a64_code::{Instr, decode};

/// How many words are kept with their instructions.
const KEPT: usize = 256;

/// A word with its instruction.
#[derive(Clone, Copy)]
pub(crate) struct Decoded {
    pub(crate) word: u32,
    pub(crate) instr: Option<Instr>,
}

impl Decoded {
    // The word with what it is decoded to.
    fn of(word: u32) -> Decoded
        ensures word { result.word ≡ word }
        ensures decoded { IsDecoded result }
    {
        Decoded {
            word,
            instr: decode(word),
        }
    }
}

/// Decodes words, and keeps the last ones with their instructions: each has one place where it may stand. What is kept
/// holds of the word wherever it stands in memory, so no store changes it.
#[derive(Drop)]
pub(crate) struct Decoder {
    kept: [Decoded; KEPT],
    ghost decoded: { All IsDecoded kept },
}

impl Decoder {
    // One that keeps the word zero alone.
    pub(crate) fn new() -> Decoder {
        let zero = Decoded::of(0);
        Decoder { kept: [zero; KEPT] }
    }

    // The instruction of a word, as `decode` answers it.
    #[inline(always)]
    pub(crate) fn decode(&mut self, word: u32) -> Option<Instr>
        ensures instruction { result ≡ instruction_of word }
    {
        let place = place_of(word);
        let known = self.kept[place];
        if known.word == word {
            return known.instr;
        }
        let decoded = Decoded::of(word);
        self.kept[place] = decoded;
        decoded.instr
    }
}

// Where a word is kept. The upper bits of the product depend on all bits of the word.
#[inline(always)]
fn place_of(word: u32) -> usize
    ensures { result < 256 }
{
    (word.wrapping_mul(0x9E37_79B1) >> 24) as usize
}
