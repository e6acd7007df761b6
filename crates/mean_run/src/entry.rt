//! Where a call's body runs.

use c_type_base::TFunction;
use mean_effects::Here;

/// A function that is called, and where its body runs.
#[derive(Clone, Copy)]
pub struct Entry<'a> {
    pub function: &'a TFunction,
    pub here: Here<'a>,
}

/// How many calls there were, and where the locals of the next one begin.
#[derive(Clone, Copy)]
pub struct NextCall {
    pub calls: u64,
    pub base: usize,
}
