//! What stands at a place.

use block_meaning::Pointer;
use c_type_base::Ty;

/// An object: its type, and where it stands.
#[derive(Clone, Copy)]
pub struct Object<'a> {
    pub ty: &'a Ty,
    pub at: Pointer,
}
