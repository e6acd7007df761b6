//! Words and their places.

use c_ast::{Name, Span};

/// A name, and where it stands.
#[derive(Drop)]
pub struct Named {
    pub name: Name,
    pub place: Span,
}
