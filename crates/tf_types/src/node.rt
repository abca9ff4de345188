use enc_base::List;

/// The number of a type in a table. Numbers count from 0, in the order in which types are added.
#[derive(Clone, Copy, Debug, PartialEq, Eq, Hash, Drop)]
pub struct TypeId {
    pub index: usize,
}

/// What a number stands for: a type variable, or a constructor with the numbers of its arguments.
#[derive(Debug, Drop)]
pub enum TypeNode {
    Var(u32),
    Apply(u32, List<TypeId>),
}

/// What a table keeps of a number. A type is kept as another with one argument more, so that no
/// node has a list of its own and types share what they begin with.
#[derive(Clone, Copy, Debug, PartialEq, Eq, Hash, Drop)]
pub(crate) enum Node {
    Variable(u32),
    Constructor(u32),
    /// The first type with the second as one argument more.
    Applied(TypeId, TypeId),
}

/// A type and the types for its variables. These are the arguments of the second type.
#[derive(Clone, Copy, Debug, PartialEq, Eq, Hash, Drop)]
pub(crate) struct Asked {
    pub(crate) ty: TypeId,
    pub(crate) types: TypeId,
}
