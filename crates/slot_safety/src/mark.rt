//! Steps along paths, and tagging the locals of those that end.

ghost use Rattle.std.specs.Prelude.{◌≡◌, ◌∷◌, []};
ghost use Rattle.slot_safety.specs.Kinds.{marked};
ghost use Rattle.slot_safety.specs.Paths as spec;

use crate::kind::Kind;
use crate::seen::{Path, Seen};
use c_type_base::{Constancy, Ty, is_scalar};

/// Tags the local of a number.
fn mark(local: u32, kinds: &mut [Kind])
    ensures { kinds.new ≡ marked kinds.old (local ∷ []) }
{
    if (local as usize) < kinds.len() {
        kinds[local as usize] = Kind::Tagged;
    }
}

/// Tags the local in which a path stands.
pub fn mark_start(path: Path, kinds: &mut [Kind])
    ensures { kinds.new ≡ marked kinds.old (spec.start_of path) }
{
    match path {
        Path::Nowhere => {}
        Path::Object(local) => mark(local, kinds),
        Path::Elements(local, _) => mark(local, kinds),
    }
}

/// Where something of a type is read, written or changed: tags its local where it is no scalar.
pub fn mark_misused(ty: &Ty, path: Path, kinds: &mut [Kind])
    ensures { kinds.new ≡ marked kinds.old (spec.misused ty.now path) }
{
    match path {
        Path::Object(local) => {
            if !is_scalar(ty) {
                mark(local, kinds);
            }
        }
        _ => mark_start(path, kinds),
    }
}

/// An object of a type as the pointer to its first element.
pub fn decayed(ty: &Ty, path: Path) -> Path
    ensures { result ≡ spec.decayed ty.now path }
{
    match path {
        Path::Object(local) => match ty {
            Ty::Array(_, length) => Path::Elements(local, *length),
            _ => Path::Nowhere,
        },
        _ => Path::Nowhere,
    }
}

/// A member.
pub fn member(path: Path) -> Path
    ensures { result ≡ spec.member path }
{
    match path {
        Path::Object(local) => Path::Object(local),
        _ => Path::Nowhere,
    }
}

/// The element of an index.
pub fn element(path: Path, index: Constancy) -> Path
    ensures { result ≡ spec.element path index }
{
    match path {
        Path::Elements(local, length) => match index {
            Constancy::Is(index) => {
                if index < length {
                    Path::Object(local)
                } else {
                    Path::Nowhere
                }
            }
            _ => Path::Nowhere,
        },
        _ => Path::Nowhere,
    }
}

/// A step from one path to another: where it ends, its local is tagged.
pub fn go_on(before: Path, after: Path, kinds: &mut [Kind]) -> Seen
    ensures path { result ≡ record { constant = Constancy.Varies; path = after } }
    ensures kinds { kinds.new ≡ marked kinds.old (spec.ended before after) }
{
    match after {
        Path::Nowhere => mark_start(before, kinds),
        _ => {}
    }
    Seen {
        constant: Constancy::Varies,
        path: after,
    }
}
