//! What an initialiser is, once it is fitted to the object that it initialises.

use c_type_base::{InitPiece, TInit};
use sqlite_items::Items;

/// An initialiser in the typed program, and the bytes with which an object of the whole run begins.
#[derive(Drop)]
pub struct Fitted {
    pub tree: TInit,
    /// By increasing offsets where the object's type may be one of an object.
    pub pieces: Items<InitPiece>,
}
