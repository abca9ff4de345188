//! Where a check stands: the entry, and the signature of the file.

use crate::error::TypeError;
use crate::table::Table;
use enc_base::Name;
use std::alloc::Global;

/// What the checks of one entry share.
#[derive(Clone, Copy)]
pub(crate) struct Context<'t, 'a> {
    pub(crate) alloc: Global,
    /// The index of the entry, which the errors carry.
    pub(crate) entry: usize,
    pub(crate) table: &'t Table<'a>,
}
