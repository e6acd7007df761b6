ghost use Rattle.std.specs.Prelude.{◌≡◌};
ghost use Rattle.elf_base.specs.Zeros.{are_zero, is_zero_between};

// All of these bytes are zero.
fn are_zero(bytes: &[u8]) -> bool
    ensures { result ≡ are_zero bytes.now }
{
    bytes.iter().all(|byte| *byte == 0)
}

/// The bytes from a place up to another are zero, as far as there are any.
#[tactic(auto, unfolding(crate::specs::Zeros::is_zero_between))]
pub fn is_zero_between(file: &[u8], from: u64, to: u64) -> bool
    ensures { result ≡ is_zero_between file.now from to }
{
    let len = file.len() as u64;
    if from >= len || to <= from {
        return true;
    }
    let end = if to < len { to } else { len };
    are_zero(&file[from as usize..end as usize])
}
