ghost use Rattle.std.specs.Prelude.{◌≡◌, ◌<◌, ◌^◌, ℕ, map, length, nat_eq, position, IfOk, OnOk};
ghost use Rattle.std.specs.HashMap as hash;
ghost use Rattle.enc_marks.specs.Marks.{is_constructor, constructor_number, noted, number_in};
ghost use Rattle.enc_marks.specs.Translation as specs;

use crate::mark::Mark;
use crate::type_writer::type_variable;
use enc_base::{List, NoMemory};
use fof_models::FofTerm;
use std::alloc::Global;
use std::collections::HashMap;
use tf_core::Ty;

/// A type as a term under `depth` binders, of which those of its type variables are the outermost.
///
/// Each constructor of the type is to be marked, and each type variable below the depth. The time
/// is that of reading the type and the marks once.
pub fn type_term(alloc: Global, ty: &Ty, marks: &[Mark], depth: u32) -> Result<FofTerm, NoMemory>
    requires count { length marks.now < 2 ^ 32 }
    ensures exact { IfOk result (λ t. t
        ≡ specs.type_term (constructor_number marks.now) depth ty.now) }
{
    let numbers = constructor_numbers(alloc, marks)?;
    let unmarked = marks.len() as u32;
    numbered(alloc, &numbers, unmarked, depth, ty)
}

// the numbers of the constructors that are marked
fn constructor_numbers(alloc: Global, marks: &[Mark]) -> Result<HashMap<u32, u32>, NoMemory>
    requires count { length marks.now < 2 ^ 32 }
    ensures { IfOk result (λ numbers. (c : ℕ) → hash.get nat_eq numbers c
        ≡ position (is_constructor c)
        marks.now) }
{
    let mut numbers = HashMap::new(alloc);
    for (i, mark) in marks.iter().enumerate() {
        note(&mut numbers, mark, i as u32)?;
    }
    Ok(numbers)
}

// gives a marked constructor this number, unless it has one
fn note(numbers: &mut HashMap<u32, u32>, mark: &Mark, number: u32) -> Result<(), NoMemory>
    ensures { OnOk result ((c : ℕ) → hash.get nat_eq numbers.new c
        ≡ noted (hash.get nat_eq numbers.old
        c) (is_constructor c mark.now) number) }
{
    if let Mark::Constructor(c) = mark {
        if !numbers.contains_key(c) {
            numbers.insert(*c, number)?;
        }
    }
    Ok(())
}

// a type as a term, by the numbers of constructors
#[cycle(type_term)]
fn numbered(
    alloc: Global,
    numbers: &HashMap<u32, u32>,
    unmarked: u32,
    depth: u32,
    ty: &Ty,
) -> Result<FofTerm, NoMemory>
    ensures { IfOk result (λ t. t ≡ specs.type_term (number_in numbers.now unmarked) depth ty.now) }
{
    match ty {
        Ty::Var(i) => Ok(type_variable(*i, depth)),
        Ty::Apply(c, arguments) => {
            let number = look_up(numbers, unmarked, *c);
            let terms = all_numbered(alloc, numbers, unmarked, depth, arguments.as_slice())?;
            Ok(FofTerm::Apply(number, terms))
        }
    }
}

fn look_up(numbers: &HashMap<u32, u32>, unmarked: u32, c: u32) -> u32
    ensures { result ≡ number_in numbers.now unmarked c }
{
    numbers.get(&c).copied().unwrap_or(unmarked)
}

// types as terms, by the numbers of constructors
#[cycle(type_term)]
fn all_numbered(
    alloc: Global,
    numbers: &HashMap<u32, u32>,
    unmarked: u32,
    depth: u32,
    types: &[Ty],
) -> Result<List<FofTerm>, NoMemory>
    ensures { IfOk result (λ terms. terms
        ≡ map (specs.type_term (number_in numbers.now unmarked) depth)
        types.now) }
{
    let mut terms = List::new(alloc);
    for ty in types {
        terms.push(numbered(alloc, numbers, unmarked, depth, ty)?)?;
    }
    Ok(terms)
}
