//! Numbers of trees, and trees of numbers.

ghost use Rattle.std.specs.Prelude.{◌≡◌, IfOk, reverse};
ghost use Rattle.tf_core.specs.declared.ty.Ty.TheVariants.{Apply};
ghost use Rattle.tf_types.specs.Numbers.{Denotes, Extends, IsNumber, IsOneToOne, type_at};
ghost use Rattle.tf_types.specs.Nodes.{denoted, NamesBelow};

use crate::node::{Node, TypeId, TypeNode};
use crate::table::TypeTable;
use enc_base::{List, NoMemory};
use tf_core::Ty;

impl TypeTable {
    /// The number of the type. What is new of it is added, and stays where the call ends for want
    /// of memory.
    #[cycle(number_of)]
    pub fn number_of(&mut self, ty: &Ty) -> Result<TypeId, NoMemory>
        ensures denoted { IfOk result (λ id. Denotes self.new id ty.now) }
        ensures kept { Extends self.old self.new }
        ensures one_to_one { IsOneToOne self.new }
    {
        match ty {
            Ty::Var(i) => self.variable(*i),
            Ty::Apply(c, arguments) => self.number_of_applied(*c, arguments.as_slice()),
        }
    }

    // the number of the constructor applied to the types
    #[cycle(number_of)]
    fn number_of_applied(&mut self, constructor: u32, types: &[Ty]) -> Result<TypeId, NoMemory>
        ensures denoted { IfOk result (λ id. Denotes self.new id (Apply constructor types.now)) }
        ensures kept { Extends self.old self.new }
        ensures one_to_one { IsOneToOne self.new }
    {
        let mut id = self.constructor(constructor)?;
        for ty in types {
            let argument = self.number_of(ty)?;
            id = self.with_argument(id, argument)?;
        }
        Ok(id)
    }

    /// What the number stands for, over smaller numbers.
    pub fn node_at(&self, id: TypeId) -> Result<TypeNode, NoMemory>
        requires { IsNumber self.now id }
        ensures denoted { IfOk result (λ node. denoted self.now node ≡ type_at self.now id) }
        ensures below { IfOk result (NamesBelow id.index) }
    {
        let mut arguments = Vec::new(self.allocator());
        let mut at = id;
        loop {
            match self.node(at) {
                Node::Variable(i) => return Ok(TypeNode::Var(i)),
                Node::Constructor(c) => return Ok(TypeNode::Apply(c, reversed(arguments))),
                Node::Applied(function, argument) => {
                    arguments.push(argument)?;
                    at = function;
                }
            }
        }
    }

    /// The type that the number denotes, as a tree.
    pub fn tree_of(&self, id: TypeId) -> Result<Ty, NoMemory>
        requires { IsNumber self.now id }
        ensures { IfOk result (λ ty. ty ≡ type_at self.now id) }
    {
        match self.node_at(id)? {
            TypeNode::Var(i) => Ok(Ty::Var(i)),
            TypeNode::Apply(c, arguments) => {
                let mut trees = List::new(self.allocator());
                for argument in arguments.as_slice() {
                    trees.push(self.tree_of(*argument)?)?;
                }
                Ok(Ty::Apply(c, trees))
            }
        }
    }
}

// the numbers in the opposite order
fn reversed(mut numbers: Vec<TypeId>) -> List<TypeId>
    ensures { result ≡ reverse numbers.items }
{
    numbers.as_mut_slice().reverse();
    List::from_vec(numbers)
}
