ghost use Rattle.std.specs.Prelude.{◌≡◌};
ghost use Rattle.linker.specs.Fields.{page, with_bits, with_page, with_low, with_low_of_8, with_distance, relocated};

/// A relocation of an instruction at its place.
#[derive(Clone, Copy)]
pub struct Site {
    /// What is put there, as `R_AARCH64_CALL26`.
    pub kind: u32,
    /// The address of the instruction, P.
    pub place: u64,
    /// The sum of the symbol's address and the addend, S + A.
    pub sum: u64,
    /// The address of the symbol's word in the global offset table, G.
    pub got: u64,
}

// The start of the page of 4,096 bytes that has an address.
fn page(x: u64) -> u64
    ensures { result ≡ page x }
{
    x / 4096 * 4096
}

// ADRP: the distance from one page to another in pages, as 2 bits and 19 bits.
#[tactic(auto, unfolding(crate::specs::Fields::with_page))]
fn with_page(x: u64, place: u64, word: u32) -> u32
    ensures { result ≡ with_page x place word }
{
    let pages = page(x).wrapping_sub(page(place)) / 4096;
    with_low_pages(pages, with_high_pages(pages / 4, word))
}

// The 19 bits from bit 5 on.
fn with_high_pages(value: u64, word: u32) -> u32
    ensures { result ≡ with_bits 5 19 value word }
{
    let field = (value % 0x8_0000) as u32;
    word / 0x100_0000 * 0x100_0000 + field * 0x20 + word % 0x20
}

// The 2 bits from bit 29 on.
fn with_low_pages(value: u64, word: u32) -> u32
    ensures { result ≡ with_bits 29 2 value word }
{
    let field = (value % 4) as u32;
    word / 0x8000_0000 * 0x8000_0000 + field * 0x2000_0000 + word % 0x2000_0000
}

// The 12 bits from bit 10 on.
fn with_twelve(value: u64, word: u32) -> u32
    ensures { result ≡ with_bits 10 12 value word }
{
    let field = (value % 0x1000) as u32;
    word / 0x40_0000 * 0x40_0000 + field * 0x400 + word % 0x400
}

// ADD: the low 12 bits.
#[tactic(auto, unfolding(crate::specs::Fields::with_low))]
fn with_low(x: u64, word: u32) -> u32
    ensures { result ≡ with_low x word }
{
    with_twelve(x, word)
}

// LDR of 8 bytes: the low 12 bits, counted in 8 bytes.
#[tactic(auto, unfolding(crate::specs::Fields::with_low_of_8))]
fn with_low_of_8(x: u64, word: u32) -> u32
    ensures { result ≡ with_low_of_8 x word }
{
    with_twelve(x % 4096 / 8, word)
}

// The 26 bits from bit 0 on.
fn with_words(value: u64, word: u32) -> u32
    ensures { result ≡ with_bits 0 26 value word }
{
    let field = (value % 0x400_0000) as u32;
    word / 0x400_0000 * 0x400_0000 + field
}

// B and BL: the distance in words.
#[tactic(auto, unfolding(crate::specs::Fields::with_distance))]
fn with_distance(x: u64, place: u64, word: u32) -> u32
    ensures { result ≡ with_distance x place word }
{
    with_words(x.wrapping_sub(place) / 4, word)
}

/// The word of an instruction with its field relocated.
pub(crate) fn relocated(site: &Site, word: u32) -> u32
    ensures { result ≡ relocated site.now word }
{
    match site.kind {
        275 => with_page(site.sum, site.place, word),
        277 => with_low(site.sum, word),
        282 | 283 => with_distance(site.sum, site.place, word),
        311 => with_page(site.got, site.place, word),
        312 => with_low_of_8(site.got, word),
        _ => word,
    }
}
