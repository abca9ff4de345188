use tf_naked::SortTable;

/// The guards or tags that a translation writes: one of all types, whose first argument is the type,
/// or one for each sort.
#[derive(Clone, Copy)]
pub enum Marks<'a> {
    Shared,
    Sorts(&'a SortTable),
}
