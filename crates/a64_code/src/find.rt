ghost use Rattle.std.specs.Prelude.{◌≡◌, ◌==◌, ◌≤◌, length, drop, bit_and};
ghost use Rattle.std.specs.List.{find};
ghost use Rattle.std.specs.Option.{option_copied};

use crate::first_rows::FIRST_ROWS;
use crate::rows::{ROWS, TableRow};

/// The row that fits a word. At most one does, so the search may begin where the word's upper bits say, and goes over the
/// whole table only where nothing fits from there on.
pub fn row_of(word: u32) -> Option<&'static TableRow>
    ensures { option_copied result ≡ find (λ r. bit_and word r.fixed == r.base) ROWS }
{
    let start = usize::from(FIRST_ROWS[(word >> 23) as usize]).min(ROWS.len());
    match first_from(start, word) {
        Some(row) => Some(row),
        None => first_from(0, word),
    }
}

/// The first row from a place on that fits a word.
fn first_from(start: usize, word: u32) -> Option<&'static TableRow>
    requires { start ≤ length ROWS }
    ensures { option_copied result ≡ find (λ r. bit_and word r.fixed == r.base) (drop start ROWS) }
{
    first_of(&ROWS[start..], word)
}

/// The first of some rows that fits a word.
fn first_of(rows: &'static [TableRow], word: u32) -> Option<&'static TableRow>
    ensures { option_copied result ≡ find (λ r. bit_and word r.fixed == r.base) rows.entry.now }
{
    rows.iter().find(|row| word & row.fixed == row.base)
}
