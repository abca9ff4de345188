//! The names of types, as parts of the names of sorts' guards, tags and axioms.

ghost use Rattle.std.specs.Prelude.{◌≡◌, ◌++◌, codes, flat_map, slice_get, IfOk, OnOk};
ghost use Rattle.enc_marks.specs.Names.{flat_constructor, flat_name};

use crate::signature::constructor_name;
use crate::type_writer::TypeWriter;
use enc_base::{Name, NoMemory};
use std::alloc::Global;
use tf_core::Ty;

impl TypeWriter<'_> {
    /// A word, `_` and the name of a type.
    pub fn name_of_sort(&self, alloc: Global, word: &[u8], sort: &Ty) -> Result<Name, NoMemory>
        ensures { IfOk result (λ name. name ≡ word.now ++ (codes "_" ++ flat_name
            self.now.normal.now sort.now)) }
    {
        let mut name = Vec::from_slice(alloc, word)?;
        name.push(b'_')?;
        self.push_type(alloc, &mut name, sort)?;
        Name::from_slice(alloc, name.as_slice())
    }

    // adds the name of a type
    #[cycle(push_type)]
    fn push_type(&self, alloc: Global, name: &mut Vec<u8>, ty: &Ty) -> Result<(), NoMemory>
        ensures { OnOk result (name.new.items ≡ name.old.items
            ++ flat_name self.now.normal.now ty.now) }
    {
        match ty {
            Ty::Var(_) => Ok(()),
            Ty::Apply(c, arguments) => {
                self.push_constructor(alloc, name, *c as usize)?;
                self.push_types(alloc, name, arguments.as_slice())
            }
        }
    }

    // adds the names of types, each behind `_`
    #[cycle(push_type)]
    fn push_types(&self, alloc: Global, name: &mut Vec<u8>, types: &[Ty]) -> Result<(), NoMemory>
        ensures { OnOk result (name.new.items ≡ name.old.items ++ flat_map
            (λ argument. codes "_" ++ flat_name self.now.normal.now argument) types.now) }
    {
        for ty in types {
            name.push(b'_')?;
            self.push_type(alloc, name, ty)?;
        }
        Ok(())
    }

    // adds what a constructor is called within the name of a type
    fn push_constructor(&self, alloc: Global, name: &mut Vec<u8>, c: usize) -> Result<(), NoMemory>
        ensures { OnOk result (name.new.items ≡ name.old.items ++ flat_constructor
            self.now.normal.now c (slice_get self.now.normal.now.signature.constructors c)) }
    {
        let Some(constructor) = self.normal.signature.constructors.as_slice().get(c) else {
            return Ok(());
        };
        if c == 0 {
            name.push(b'i')?;
            return Ok(());
        }
        let own = constructor_name(alloc, self.normal, c, constructor)?;
        name.extend_from_slice(own.as_slice())?;
        Ok(())
    }
}
