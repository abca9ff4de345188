//! Types looked up in a table, to which nothing is added.

ghost use Rattle.std.specs.Prelude.{MatchOption};
ghost use Rattle.tf_core.specs.declared.ty.Ty.TheVariants.{Apply};
ghost use Rattle.tf_types.specs.Numbers.{Denotes, IsAbsent, HoldsParts};
ghost use Rattle.tf_types.specs.Nodes.{IsFormed, given};

use crate::node::{Node, TypeId};
use crate::table::TypeTable;
use tf_core::Ty;

impl TypeTable {
    /// The number of the type, where it is in the table.
    #[cycle(find)]
    pub fn find(&self, ty: &Ty) -> Option<TypeId>
        ensures exact { MatchOption result (IsAbsent self.now ty.now)
            (λ id. Denotes self.now id ty.now) }
    {
        match ty {
            Ty::Var(i) => self.find_node(Node::Variable(*i)),
            Ty::Apply(c, arguments) => self.find_applied(*c, arguments.as_slice()),
        }
    }

    // the number of the constructor applied to the types, where it is in the table
    #[cycle(find)]
    fn find_applied(&self, constructor: u32, types: &[Ty]) -> Option<TypeId>
        ensures exact { MatchOption result (IsAbsent self.now (Apply constructor types.now))
            (λ id. Denotes self.now id (Apply constructor types.now)) }
    {
        self.each_part_stands();
        let Some(mut id) = self.find_node(Node::Constructor(constructor)) else {
            return None;
        };
        for ty in types {
            let Some(argument) = self.find(ty) else {
                return None;
            };
            let Some(more) = self.find_node(Node::Applied(id, argument)) else {
                return None;
            };
            id = more;
        }
        Some(id)
    }
}
