//! The search in a table of spellings.

ghost use Rattle.std.specs.Prelude.{◌≡◌, ◌<◌, length, map};
ghost use Rattle.c_ast.specs.Words.{place_of};

/// The place of the bytes in a table, if they stand there.
pub fn index_in(mut table: &[&[u8]], bytes: &[u8]) -> Option<u8>
    requires { length table.now < 256 }
    ensures { result ≡ place_of bytes.now (map (λ spelled. spelled.now) table.entry.now) }
{
    let mut place = 0;
    while let [first, rest @ ..] = table {
        if *first == bytes {
            return Some(place);
        }
        place += 1;
        table = rest;
    }
    None
}
