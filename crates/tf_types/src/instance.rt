//! Instances of types, each made once.

ghost use Rattle.std.specs.Prelude.{◌≡◌, IfOk, map, get_or, length, ◌<◌};
ghost use Rattle.tf_core.specs.declared.ty.Ty.TheVariants.{Apply};
ghost use Rattle.tf_core.specs.Types.{instantiate};
ghost use Rattle.tf_types.specs.Numbers.{Denotes, Extends, IsNumber, AreNumbers, IsOneToOne, type_at};

use crate::node::{Asked, TypeId, TypeNode};
use crate::table::TypeTable;
use enc_base::NoMemory;

impl TypeTable {
    /// The number of the type with its variables replaced, the i-th by the i-th of the types. It is
    /// made once: what was asked for before is looked up.
    pub fn instance(&mut self, id: TypeId, types: &[TypeId]) -> Result<TypeId, NoMemory>
        requires number { IsNumber self.old id }
        requires numbers { AreNumbers self.old types.now }
        ensures denoted { IfOk result (λ made. Denotes self.new made
            (instantiate (map (type_at self.old) types.now) (type_at self.old id))) }
        ensures kept { Extends self.old self.new }
        ensures one_to_one { IsOneToOne self.new }
    {
        // as arguments of a constructor the types have one number, by which instances are kept
        let listed = self.apply(0, types)?;
        self.instance_in(id, types, listed)
    }

    // the instance as it is kept, or made now and kept
    #[cycle(instance_in)]
    fn instance_in(
        &mut self,
        id: TypeId,
        types: &[TypeId],
        listed: TypeId,
    ) -> Result<TypeId, NoMemory>
        requires number { IsNumber self.old id }
        requires numbers { AreNumbers self.old types.now }
        requires listed { Denotes self.old listed (Apply 0 (map (type_at self.old) types.now)) }
        requires one_to_one { IsOneToOne self.old }
        ensures denoted { IfOk result (λ made. Denotes self.new made
            (instantiate (map (type_at self.old) types.now) (type_at self.old id))) }
        ensures kept { Extends self.old self.new }
        ensures one_to_one { IsOneToOne self.new }
    {
        if self.is_ground(id) {
            return Ok(id);
        }
        let asked = Asked {
            ty: id,
            types: listed,
        };
        if let Some(made) = self.kept_instance(asked) {
            return Ok(made);
        }
        let made = self.new_instance(id, types, listed)?;
        self.keep_instance(asked, made)?;
        Ok(made)
    }

    // the instance, made from those of the type's arguments
    #[cycle(instance_in)]
    fn new_instance(
        &mut self,
        id: TypeId,
        types: &[TypeId],
        listed: TypeId,
    ) -> Result<TypeId, NoMemory>
        requires number { IsNumber self.old id }
        requires numbers { AreNumbers self.old types.now }
        requires listed { Denotes self.old listed (Apply 0 (map (type_at self.old) types.now)) }
        requires one_to_one { IsOneToOne self.old }
        ensures denoted { IfOk result (λ made. Denotes self.new made
            (instantiate (map (type_at self.old) types.now) (type_at self.old id))) }
        ensures kept { Extends self.old self.new }
        ensures one_to_one { IsOneToOne self.new }
    {
        match self.node_at(id)? {
            TypeNode::Var(i) => Ok(replacement(i, id, types)),
            TypeNode::Apply(c, arguments) => {
                let mut made = self.constructor(c)?;
                for argument in arguments.as_slice() {
                    let ty = self.instance_in(*argument, types, listed)?;
                    made = self.with_argument(made, ty)?;
                }
                Ok(made)
            }
        }
    }
}

// the type in the variable's place, or the variable itself
fn replacement(i: u32, variable: TypeId, types: &[TypeId]) -> TypeId
    ensures { result ≡ get_or types.now i variable }
{
    match types.get(i as usize) {
        Some(ty) => *ty,
        None => variable,
    }
}
