/// How the variable of a universal binder stands in the binder's body.
#[derive(Debug, Clone, Copy)]
pub struct Binder {
    /// Whether it stands at a cover or at a side of a positive equation.
    pub undercover: bool,
    /// Whether it stands at a side of a positive equation.
    pub naked: bool,
}
