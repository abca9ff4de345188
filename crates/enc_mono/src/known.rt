//! The symbol instances that are known.

ghost use Rattle.std.specs.Prelude.{◌≡◌, ◌<◌, ◌∷◌, [], IfOk, OnOk, length, map, ℕ, List};
ghost use Rattle.std.specs.List.{AllByRecursion};
ghost use Rattle.tf_core.specs.declared.ty.Ty.{Ty};
ghost use Rattle.tf_core.specs.declared.ty.Ty.TheVariants.{Apply};
ghost use Rattle.tf_types.specs.Numbers.{Denotes, AreNumbers};
ghost use Rattle.enc_mono.specs.declared.instances.Origin.{Origin};
ghost use Rattle.enc_mono.specs.Instances.{instance_under};
ghost use Rattle.enc_mono.specs.Calls.Numbered.{as_type, keys_in, AreInstances, HasInstance};
ghost use Rattle.enc_mono.specs.Calls.Matched.{denoted};
ghost use Rattle.enc_mono.specs.Calls.Known.{IsKept, IsNamed, Files, FilesId, index_in};

use enc_base::NoMemory;
use indexmap::IndexSet;
use std::alloc::Global;
use tf_core::Ty;
use tf_types::{TypeId, TypeTable};

/// Symbol instances as types, by symbol: each stands once under its symbol, by its number.
#[derive(Drop)]
pub(crate) struct Known {
    pub(crate) table: TypeTable,
    pub(crate) index: Vec<IndexSet<TypeId>>,
}

impl Known {
    /// None, of so many symbols.
    pub(crate) fn new(alloc: Global, symbols: usize) -> Result<Known, NoMemory>
        ensures kept { IfOk result IsKept }
        ensures count { IfOk result (λ known. length (index_in known) ≡ symbols) }
        ensures nothing { IfOk result (λ known. (origin : Origin) →
            HasInstance known.table (index_in known) origin → ⊥) }
    {
        let mut index = Vec::new(alloc);
        for _ in 0..symbols {
            index.push(IndexSet::new(alloc))?;
        }
        Ok(Known {
            table: TypeTable::new(alloc),
            index,
        })
    }

    /// Files symbol instances.
    pub(crate) fn file_all(&mut self, instances: &[Ty]) -> Result<(), NoMemory>
        requires kept { IsKept self.old }
        requires named { AllByRecursion (IsNamed (length (index_in self.old))) instances.now }
        requires instances { AreInstances instances.now }
        ensures { OnOk result ((origins : List Origin) → instances.now ≡ map as_type origins →
            Files origins self.old self.new) }
    {
        for ty in instances {
            self.file(ty)?;
        }
        Ok(())
    }

    // files a symbol instance
    fn file(&mut self, ty: &Ty) -> Result<(), NoMemory>
        requires kept { IsKept self.old }
        requires named { IsNamed (length (index_in self.old)) ty.now }
        ensures { OnOk result ((origin : Origin) → ty.now ≡ as_type origin →
            Files (origin ∷ []) self.old self.new) }
    {
        let id = self.table.number_of(ty)?;
        self.file_number(ty, id)
    }

    /// Files what symbol instances are under a substitution.
    pub(crate) fn file_under(&mut self, patterns: &[Ty], types: &[TypeId]) -> Result<(), NoMemory>
        requires kept { IsKept self.old }
        requires numbers { AreNumbers self.old.table types.now }
        requires named { AllByRecursion (IsNamed (length (index_in self.old))) patterns.now }
        requires instances { AreInstances patterns.now }
        ensures { OnOk result ((origins : List Origin) → patterns.now ≡ map as_type origins →
            Files (map (instance_under (denoted self.old.table types.now)) origins)
            self.old self.new) }
    {
        for pattern in patterns {
            self.file_instance(pattern, types)?;
        }
        Ok(())
    }

    // files what a symbol instance is under a substitution
    fn file_instance(&mut self, pattern: &Ty, types: &[TypeId]) -> Result<(), NoMemory>
        requires kept { IsKept self.old }
        requires numbers { AreNumbers self.old.table types.now }
        requires named { IsNamed (length (index_in self.old)) pattern.now }
        ensures { OnOk result ((origin : Origin) → pattern.now ≡ as_type origin →
            Files (instance_under (denoted self.old.table types.now) origin ∷ [])
            self.old self.new) }
    {
        let id = self.table.number_of(pattern)?;
        let made = self.table.instance(id, types)?;
        self.file_number(pattern, made)
    }

    // files a number under the symbol of a type
    fn file_number(&mut self, ty: &Ty, id: TypeId) -> Result<(), NoMemory>
        requires named { IsNamed (length (index_in self.old)) ty.now }
        ensures table { self.new.table ≡ self.old.table }
        ensures filed { OnOk result ((f : ℕ) (arguments : List Ty) → ty.now ≡ Apply f arguments →
            FilesId (index_in self.old) (index_in self.new) f id) }
    {
        match ty {
            Ty::Var(_) => Ok(()),
            Ty::Apply(f, _) => file_id(self.index.as_mut_slice(), *f as usize, id),
        }
    }
}

// puts a number under a symbol
fn file_id(index: &mut [IndexSet<TypeId>], symbol: usize, id: TypeId) -> Result<(), NoMemory>
    requires within { symbol < length index.old }
    ensures { OnOk result (FilesId (keys_in index.old) (keys_in index.new) symbol id) }
{
    index[symbol].insert_full(id)?;
    Ok(())
}
