ghost use Rattle.std.specs.Prelude.{◌≡◌, ◌+◌, ◌*◌, ◌<◌, ◌≤◌, ◌^◌, ◌==◌, Some, None, [], length, take, slice_get, slice_index_or, get_or};
ghost use Rattle.std.specs.Prelude.{MatchResult};
ghost use Rattle.std.specs.List.{list_any, list_all};
ghost use Rattle.elf_base.specs.Records.{sym_fields};
ghost use Rattle.elf_base.specs.Conditions.{first_fault};
ghost use Rattle.elf_obj.specs.Sections.{names_end};
ghost use Rattle.elf_obj.specs.Records.{symbol_record};
ghost use Rattle.elf_obj.specs.Rules.{is_empty, is_named, is_new, is_whole, is_within, has_place, symbol_keeps};
ghost use Rattle.elf_obj.specs.Repeats.{first_repeat};
ghost use Rattle.elf_obj.specs.Claimed.{size_of};
ghost use Rattle.elf_obj.specs.Conditions.{stands};
ghost use Rattle.elf_obj.specs.ObjectFault.{is_symbol, symbol_conditions, symbol_spot};
ghost use Rattle.elf_obj.specs.Laws.Held.{AreHeld};

use crate::file::{both, size_of, stand_at};
use crate::parts::{Home, Symbol};
use crate::put::symbol_record;
use crate::refusal::{ObjectRefusal, told};
use crate::sizes::Sizes;
use elf_base::write_sym;

// One of the bytes is zero.
fn has_zero(bytes: &[u8]) -> bool
    ensures { result ≡ list_any (λ b. b == 0) bytes.now }
{
    bytes.iter().any(|byte| *byte == 0)
}

// There are no bytes.
fn is_empty(bytes: &[u8]) -> bool
    ensures { result ≡ is_empty bytes.now }
{
    bytes.len() == 0
}

// A name has no zero byte, and only that of a local symbol is empty.
fn is_named(symbol: &Symbol) -> bool
    ensures { result ≡ is_named symbol.now }
{
    let name = symbol.name.as_slice();
    !has_zero(name) && (symbol.local || !is_empty(name))
}

fn is_whole(symbol: &Symbol) -> bool
    ensures { result ≡ is_whole symbol.now }
{
    symbol.function || symbol.value % 16 == 0 && symbol.size % 16 == 0 && symbol.size > 0
}

// The symbol lies within so many bytes.
fn is_within(bytes: u64, symbol: &Symbol) -> bool
    ensures { result ≡ is_within bytes symbol.now }
{
    symbol.value <= bytes && symbol.size <= bytes - symbol.value && is_whole(symbol)
}

// The symbol lies within its section, or has none and no place.
fn has_place(sizes: &Sizes, symbol: &Symbol) -> bool
    ensures { result ≡ has_place sizes.now symbol.now.home symbol.now }
{
    match symbol.home {
        Home::Undef => {
            !symbol.local && !symbol.function && symbol.value == 0 && symbol.size == 0
        }
        Home::Text => is_within(sizes.text, symbol),
        Home::Rodata => is_within(sizes.rodata, symbol),
        Home::Init => is_within(sizes.init, symbol),
        Home::Zero => is_within(sizes.zero, symbol),
    }
}

// The symbol keeps the rules behind the earlier ones, which are all local or not, and of which another that is seen has its name or none.
#[tactic(auto, unfolding(crate::specs::Rules::symbol_keeps))]
fn symbol_keeps(
    sizes: &Sizes,
    earlier: &[Symbol],
    all_local: bool,
    new: bool,
    symbol: &Symbol,
) -> bool
    requires locals { all_local ≡ list_all (λ e. e.local) earlier.now }
    requires new { new ≡ is_new earlier.now symbol.now }
    ensures { result ≡ symbol_keeps sizes.now earlier.now symbol.now }
{
    (!symbol.local || all_local) && is_named(symbol) && new && has_place(sizes, symbol)
}

// The record of the symbol and its name stand where they should, and it keeps the rules.
#[tactic(auto, unfolding(crate::specs::ObjectFault::is_symbol))]
fn is_symbol(
    file: &[u8],
    sizes: &Sizes,
    at: u64,
    place: u64,
    earlier: &[Symbol],
    all_local: bool,
    new: bool,
    symbol: &Symbol,
) -> bool
    requires start { 64 ≤ length file.now }
    requires held { AreHeld file.now }
    requires within { at + 24 ≤ length file.now }
    requires locals { all_local ≡ list_all (λ e. e.local) earlier.now }
    requires new { new ≡ is_new earlier.now symbol.now }
    ensures { result ≡ is_symbol file.now sizes.now (symbol_spot at place earlier.now) symbol.now }
{
    if place >= 0x1_0000_0000 {
        return false;
    }
    let end = place + symbol.name.as_slice().len() as u64 + 1;
    let mut bytes = [0; 24];
    write_sym(&symbol_record(place as u32, symbol), &mut bytes);
    stand_at(file, at, &bytes)
        && end <= size_of(file, 6)
        && symbol_keeps(sizes, earlier, all_local, new, symbol)
}

// The first symbol that is not as it should be. Their records begin at a place of the file, and the first whose name is there
// already has a number.
pub(crate) fn judge_symbols(
    file: &[u8],
    sizes: &Sizes,
    at: u64,
    repeat: usize,
    symbols: &[Symbol],
) -> Result<(), ObjectRefusal>
    requires start { 64 ≤ length file.now }
    requires held { AreHeld file.now }
    requires within { 1 ≤ length symbols.now → at + 24 * length symbols.now ≤ length file.now }
    requires names { names_end 1 symbols.now < 2 ^ 64 }
    requires repeat { repeat ≡ first_repeat 0 [] symbols.now }
    ensures { MatchResult result
        (λ _. first_fault (symbol_conditions file.now sizes.now (symbol_spot at 1 []) 1 symbols.now) ≡ None)
        (λ e. first_fault (symbol_conditions file.now sizes.now (symbol_spot at 1 []) 1 symbols.now) ≡ Some e) }
{
    let mut place: u64 = 1;
    let mut all_local = true;
    for index in 0..symbols.len() {
        let symbol = &symbols[index];
        let here = at + 24 * index as u64;
        let earlier = &symbols[..index];
        let new = index != repeat;
        if !is_symbol(file, sizes, here, place, earlier, all_local, new, symbol) {
            return Err(ObjectRefusal::BadSymbol {
                index: told(index as u64 + 1),
            });
        }
        place += symbol.name.as_slice().len() as u64 + 1;
        all_local = both(all_local, symbol.local);
    }
    Ok(())
}
