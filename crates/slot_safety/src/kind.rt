//! How the slot of a parameter or local is kept.

/// Whether all uses of a parameter or local are known to stay in it.
#[derive(Clone, Copy)]
pub enum Kind {
    /// Each of its occurrences is a scalar that is read or written whole, or starts a path of members and
    /// constant indices in range that ends at one. A struct that is read or written whole is tagged.
    Safe,
    /// It gets a tag of its own, and each access to it is checked.
    Tagged,
}
