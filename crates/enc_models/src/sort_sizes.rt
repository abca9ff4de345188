ghost use Rattle.std.specs.Prelude.{◌≡◌, ◌≤◌, [], ◌∷◌, map, length, replicate, IfOk, IsTrue};
ghost use Rattle.enc_base.specs.Tables.{tuple_count};
ghost use Rattle.enc_base.specs.Tuples.{IsPlaced};
ghost use Rattle.tf_core.specs.Sorts.{joined, declared_types, binder_types, sorts};
ghost use Rattle.tf_core.specs.Sound.{is_monomorphic, IsSoundNormal};
ghost use Rattle.tf_core.specs.Typing.{IsType, AreTypes};
ghost use Rattle.tf_models.specs.Reading.{tables};
ghost use Rattle.tf_models.specs.Fit.{ConstructorsFit};
ghost use Rattle.tf_models.specs.Evaluation.{member_in, size_in, IsReady};
ghost use Rattle.enc_laws.specs.CollapsedStructure.{greatest};
ghost use Rattle.enc_models.specs.Calls.SortSizes.{AreClosedTypes, AreDeclaredClosed, AreBoundClosed, greatest_size, IsMeasured};

use enc_base::{List, NoMemory};
use std::alloc::Global;
use tf_core::{Nnf, Normal, NormalFormula, Signature, Symbol, Ty};
use tf_models::{Members, TypedStructure};

/// The size of the member that each sort is, in the order of the sorts.
pub(crate) fn sizes_of_sorts(
    alloc: Global,
    normal: &Normal,
    model: &TypedStructure,
) -> Result<List<u32>, NoMemory>
    requires monomorphic { IsTrue (is_monomorphic normal.now) }
    requires sound { IsSoundNormal normal.now }
    requires ready { IsReady normal.now.signature model.now }
    ensures { IfOk result (λ sizes. sizes ≡ map (size_in model.now []) (sorts normal.now)) }
{
    let listed = tf_naked::sorts(alloc, normal)?;
    let mut sizes = List::new(alloc);
    for sort in listed.as_slice() {
        let size = model.size_of(&normal.signature, sort, Members::Listed(&[]));
        sizes.push(size)?;
    }
    Ok(sizes)
}

/// The greatest size of a member that is a sort. The sorts are not listed: it takes no memory, and
/// time in proportion to the types of the problem.
pub(crate) fn greatest_sort_size(alloc: Global, normal: &Normal, model: &TypedStructure) -> u32
    requires monomorphic { IsTrue (is_monomorphic normal.now) }
    requires sound { IsSoundNormal normal.now }
    requires ready { IsReady normal.now.signature model.now }
    ensures { result ≡ greatest (map (size_in model.now []) (sorts normal.now)) }
{
    let signature = &normal.signature;
    let declared = greatest_declared(signature, model, signature.symbols.as_slice());
    let bound = greatest_bound(signature, model, normal.formulas.as_slice());
    let found = declared.max(bound);
    if found > 0 {
        return found;
    }
    // each member has an element, so that no type was found: the individuals are the only sort
    let individuals = Ty::Apply(0, List::new(alloc));
    model.size_of(signature, &individuals, Members::Listed(&[]))
}

// the greatest among the types of symbols
fn greatest_declared(signature: &Signature, model: &TypedStructure, symbols: &[Symbol]) -> u32
    requires fit { ConstructorsFit signature.now (tables model.now) }
    requires closed { AreDeclaredClosed signature.now symbols.now }
    ensures { result ≡ greatest_size model.now (joined (map declared_types symbols.now)) }
{
    let mut found = 0u32;
    for symbol in symbols {
        found = found.max(greatest_of_symbol(signature, model, symbol));
    }
    found
}

// the greatest among the types of a symbol
fn greatest_of_symbol(signature: &Signature, model: &TypedStructure, symbol: &Symbol) -> u32
    requires fit { ConstructorsFit signature.now (tables model.now) }
    requires closed { AreClosedTypes signature.now (declared_types symbol.now) }
    ensures { result ≡ greatest_size model.now (declared_types symbol.now) }
{
    let arguments = greatest_of_types(signature, model, symbol.arguments.as_slice());
    match &symbol.result {
        Some(ty) => arguments.max(measure(signature, model, ty).greatest),
        None => arguments,
    }
}

// the greatest among types
fn greatest_of_types(signature: &Signature, model: &TypedStructure, types: &[Ty]) -> u32
    requires fit { ConstructorsFit signature.now (tables model.now) }
    requires closed { AreClosedTypes signature.now types.now }
    ensures { result ≡ greatest_size model.now types.now }
{
    let mut found = 0u32;
    for ty in types {
        found = found.max(measure(signature, model, ty).greatest);
    }
    found
}

// the greatest among the types at the binders of formulas
fn greatest_bound(signature: &Signature, model: &TypedStructure, formulas: &[NormalFormula]) -> u32
    requires fit { ConstructorsFit signature.now (tables model.now) }
    requires closed { AreBoundClosed signature.now formulas.now }
    ensures { result ≡ greatest_size model.now
        (joined (map (λ formula. binder_types formula.body) formulas.now)) }
{
    let mut found = 0u32;
    for formula in formulas {
        found = found.max(greatest_at_binders(signature, model, &formula.body));
    }
    found
}

// the greatest among the types at a formula's binders
#[cycle(greatest_at_binders)]
fn greatest_at_binders(signature: &Signature, model: &TypedStructure, formula: &Nnf) -> u32
    requires fit { ConstructorsFit signature.now (tables model.now) }
    requires closed { AreClosedTypes signature.now (binder_types formula.now) }
    ensures { result ≡ greatest_size model.now (binder_types formula.now) }
{
    match formula {
        Nnf::True => 0,
        Nnf::False => 0,
        Nnf::Atom(_, _, _, _) => 0,
        Nnf::Equation(_, _, _, _) => 0,
        Nnf::And(parts) => greatest_in_parts(signature, model, parts.as_slice()),
        Nnf::Or(parts) => greatest_in_parts(signature, model, parts.as_slice()),
        Nnf::ForAll(ty, body) => {
            let own = measure(signature, model, ty).greatest;
            own.max(greatest_at_binders(signature, model, body.get()))
        }
        Nnf::Exists(ty, body) => {
            let own = measure(signature, model, ty).greatest;
            own.max(greatest_at_binders(signature, model, body.get()))
        }
    }
}

// the same for parts, one after another
#[cycle(greatest_at_binders)]
fn greatest_in_parts(signature: &Signature, model: &TypedStructure, parts: &[Nnf]) -> u32
    requires fit { ConstructorsFit signature.now (tables model.now) }
    requires closed { AreClosedTypes signature.now (joined (map binder_types parts.now)) }
    ensures { result ≡ greatest_size model.now (joined (map binder_types parts.now)) }
{
    let mut found = 0u32;
    for part in parts {
        found = found.max(greatest_at_binders(signature, model, part));
    }
    found
}

/// The member that a type without variables is, and the greatest size of a member that the type or
/// one of its parts is.
#[derive(Drop)]
pub(crate) struct Measured {
    pub member: u32,
    pub greatest: u32,
}

// each part of a type is measured once
#[cycle(measure)]
fn measure(signature: &Signature, model: &TypedStructure, ty: &Ty) -> Measured
    requires fit { ConstructorsFit signature.now (tables model.now) }
    requires closed { IsType signature.now 0 ty.now }
    ensures { IsMeasured model.now ty.now result }
{
    match ty {
        Ty::Var(_) => unreachable!(),
        Ty::Apply(c, types) => {
            let table = model.constructors.as_slice()[*c as usize].as_slice();
            let parts = measure_all(signature, model, types.as_slice(), table);
            let member = table[parts.place];
            let size = model.sizes.as_slice()[member as usize];
            Measured {
                member,
                greatest: parts.greatest.max(size),
            }
        }
    }
}

/// The place of the tuple of the members that types are, and the greatest size of a member that one
/// of them or one of their parts is.
#[derive(Drop)]
pub(crate) struct Placed {
    pub place: usize,
    pub greatest: u32,
}

// the place is in a table with an entry for each tuple
#[cycle(measure)]
fn measure_all(signature: &Signature, model: &TypedStructure, types: &[Ty], table: &[u32]) -> Placed
    requires fit { ConstructorsFit signature.now (tables model.now) }
    requires closed { AreTypes signature.now 0 types.now }
    requires entries { tuple_count (replicate (length types.now) (length model.now.sizes))
        ≤ length table.now }
    ensures placed { IsPlaced (replicate (length types.now) (length model.now.sizes))
        (map (member_in model.now []) types.now) result.place }
    ensures greatest { result.greatest ≡ greatest_size model.now types.now }
{
    let count = model.sizes.as_slice().len();
    let mut place = 0usize;
    let mut found = 0u32;
    for ty in types {
        let Measured { member, greatest } = measure(signature, model, ty);
        place = place * count + member as usize;
        found = found.max(greatest);
    }
    Placed {
        place,
        greatest: found,
    }
}
