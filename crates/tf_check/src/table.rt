//! The signature of a file while it is gathered: names with their places.

ghost use Rattle.std.specs.Prelude.{◌≡◌, ◌↔◌, ◌≤◌, ◌<◌, ◌++◌, ◌∷◌, [], length, nat_le, IsTrue, replicate, is_some, slice_get, IfOk, OnOk, IfSome, Some, None};
ghost use Rattle.tf_check.specs.Bound.{symbol_types, types_of_symbols};
ghost use Rattle.tf_check.specs.Terms.{number_of, most_symbols};
ghost use Rattle.std.specs.Option.{option_map};
ghost use Rattle.tf_check.specs.Names.{parameters_in};
ghost use Rattle.tf_check.specs.Signature.{symbol_named, symbol_among};
ghost use Rattle.tf_check.specs.Table.{just_individuals, constructor_at, profile_at, named_profile, use_profile, with_use, listed_constructors, listed_symbols};
ghost use Rattle.tf_check.specs.Types.{constructor_named, individuals};

use enc_base::{List, Name, NoMemory};
use indexmap::IndexMap;
use std::alloc::Global;
use std::marker::Model;
use tf_core::{Constructor, Signature, Symbol, Ty, same_types};

/// How many constructors and symbols a signature may have besides `$i`.
pub(crate) const MOST_SYMBOLS: usize = 65535;

/// The type of a symbol: what a symbol is besides its name.
#[derive(Debug, Drop)]
pub(crate) struct Profile {
    pub(crate) parameters: u32,
    pub(crate) arguments: List<Ty>,
    pub(crate) result: Option<Ty>,
}

impl Profile {
    /// Whether the two are equal.
    pub(crate) fn same(&self, other: &Profile) -> bool
        ensures { IsTrue result ↔ (self.now ≡ other.now) }
    {
        self.parameters == other.parameters
            && same_types(self.arguments.as_slice(), other.arguments.as_slice())
            && same_result(&self.result, &other.result)
    }
}

/// Whether two results are equal.
fn same_result(first: &Option<Ty>, second: &Option<Ty>) -> bool
    ensures { IsTrue result ↔ (first.now ≡ second.now) }
{
    match (first, second) {
        (None, None) => true,
        (Some(ty), Some(other)) => ty.same(other),
        _ => false,
    }
}

/// The constructors with their numbers of arguments and the symbols with their types, by name, each
/// in order.
#[derive(Drop)]
pub(crate) struct Table<'a> {
    constructors: IndexMap<&'a [u8], u32>,
    symbols: IndexMap<&'a [u8], Profile>,
}

impl<'a> Model for Table<'a> {
    ghost use Rattle.tf_core.specs.declared.signature.Signature.{Signature};
    ghost use Rattle.tf_check.specs.Table.{listed_constructors, listed_symbols};
    ghost use Rattle.tf_core.specs.contracts.signature.Signature as known;
    ghost use Rattle.std.specs.Prelude.{◌≤◌, length};

    ghost Value = { Signature };

    ghost coded = { known.the_row.coded };

    ghost view = { λ table. record {
      constructors = listed_constructors table.constructors.entries;
      symbols = listed_symbols table.symbols.entries;
    } };

    ghost invariant = { λ table. record { few : length table.constructors.entries ≤ 65536 } };
}

impl<'a> Table<'a> {
    /// The table of `$i` alone.
    pub(crate) fn new(alloc: Global) -> Result<Table<'a>, NoMemory>
        ensures { IfOk result (λ table. table ≡ just_individuals) }
    {
        let mut constructors: IndexMap<&'a [u8], u32> = IndexMap::new(alloc);
        match constructors.insert(b"$i", 0) {
            Ok(_) => {}
            Err(_) => return Err(NoMemory),
        }
        Ok(Table {
            constructors,
            symbols: IndexMap::new(alloc),
        })
    }

    /// The place of the constructor with the name, and its number of arguments.
    pub(crate) fn constructor(&self, name: &[u8]) -> Option<(usize, u32)>
        ensures exact { result
            ≡ option_map constructor_at (constructor_named name.now self.now.constructors) }
        ensures within { IfSome result (λ at. at.0 < 65536) }
    {
        match self.constructors.get_full(name) {
            None => None,
            Some((place, _, arity)) => Some((place, *arity)),
        }
    }

    /// The place of the symbol with the name, and its type, if the name is no constructor.
    pub(crate) fn symbol(&self, name: &[u8]) -> Option<(usize, &Profile)>
        ensures { option_map (profile_at name.now) result ≡ symbol_named name.now self.now }
    {
        if self.constructor(name).is_some() {
            return None;
        }
        match self.symbols.get_full(name) {
            None => None,
            Some((place, _, profile)) => Some((place, profile)),
        }
    }

    /// How many symbols there are.
    pub(crate) fn symbol_count(&self) -> usize
        ensures { result ≡ length self.now.symbols }
    {
        self.symbols.len()
    }

    /// The type of the symbol at the place.
    pub(crate) fn profile(&self, place: usize) -> &Profile
        requires { place < length self.now.symbols }
        ensures { slice_get (types_of_symbols self.now) place
            ≡ Some (symbol_types result.now.arguments result.now.result) }
    {
        &self.symbols[place]
    }

    /// Whether the number of the symbol at the place is allowed: its number among all names,
    /// counted from 1, `$i` not counted.
    pub(crate) fn allows(&self, place: usize) -> bool
        ensures { result ≡ nat_le (number_of self.now place) most_symbols }
    {
        place <= MOST_SYMBOLS && self.constructors.len() + place <= MOST_SYMBOLS
    }

    /// Adds a constructor, whose name is that of no other.
    pub(crate) fn add_constructor(&mut self, name: &'a [u8], arity: u32) -> Result<(), NoMemory>
        requires absent { constructor_named name.now self.old.constructors ≡ None }
        requires room { length self.old.constructors ≤ most_symbols }
        ensures { OnOk result (self.new ≡ record self.old {
          constructors = self.old.constructors ++ record { name = name.now; arity = arity } ∷ [];
        }) }
    {
        match self.constructors.insert(name, arity) {
            Ok(_) => Ok(()),
            Err(_) => Err(NoMemory),
        }
    }

    /// Adds a symbol, whose name is that of no other.
    pub(crate) fn add_symbol(&mut self, name: &'a [u8], profile: Profile) -> Result<(), NoMemory>
        requires { symbol_among name.now self.old.symbols ≡ None }
        ensures { OnOk result (self.new ≡ record self.old {
          symbols = self.old.symbols ++ named_profile name.now profile ∷ [];
        }) }
    {
        match self.symbols.insert(name, profile) {
            Ok(_) => Ok(()),
            Err(_) => Err(NoMemory),
        }
    }

    /// How many type arguments stand before the terms of the symbol with the name, as far as it is
    /// known.
    pub(crate) fn parameters(&self, name: &[u8]) -> u32
        ensures { result ≡ parameters_in self.now.symbols name.now }
    {
        match self.symbols.get_full(name) {
            None => 0,
            Some((_, _, profile)) => profile.parameters,
        }
    }

    /// Whether there is a symbol with the name.
    fn is_known(&self, name: &[u8]) -> bool
        ensures { result ≡ is_some (symbol_among name.now self.now.symbols) }
    {
        self.symbols.get_index_of(name).is_some()
    }

    /// Adds the name as a symbol over `$i`, unless it is known.
    pub(crate) fn add_use(
        &mut self,
        alloc: Global,
        name: &'a [u8],
        arguments: usize,
        is_function: bool,
    ) -> Result<(), NoMemory>
        ensures { OnOk result (self.new ≡ with_use self.old
            (record { name = name.now; arguments = arguments; is_function = is_function })) }
    {
        if self.is_known(name) {
            return Ok(());
        }
        let profile = over_individuals(alloc, arguments, is_function)?;
        self.add_symbol(name, profile)
    }

    /// The signature itself.
    pub(crate) fn into_signature(self, alloc: Global) -> Result<Signature, NoMemory>
        ensures { IfOk result (λ signature. signature ≡ self.entry) }
    {
        let Table {
            constructors,
            symbols,
        } = self;
        Ok(Signature {
            constructors: constructors_of(alloc, constructors)?,
            symbols: symbols_of(alloc, symbols)?,
        })
    }
}

/// The constructors of the entries, in order.
fn constructors_of(
    alloc: Global,
    entries: IndexMap<&[u8], u32>,
) -> Result<List<Constructor>, NoMemory>
    ensures { IfOk result (λ listed. listed ≡ listed_constructors entries.entry.entries) }
{
    let mut listed = List::new(alloc);
    for (name, arity) in entries {
        listed.push(Constructor {
            name: Name::from_slice(alloc, name)?,
            arity,
        })?;
    }
    Ok(listed)
}

/// The symbols of the entries, in order.
fn symbols_of(alloc: Global, entries: IndexMap<&[u8], Profile>) -> Result<List<Symbol>, NoMemory>
    ensures { IfOk result (λ listed. listed ≡ listed_symbols entries.entry.entries) }
{
    let mut listed = List::new(alloc);
    for (name, profile) in entries {
        listed.push(Symbol {
            name: Name::from_slice(alloc, name)?,
            parameters: profile.parameters,
            arguments: profile.arguments,
            result: profile.result,
        })?;
    }
    Ok(listed)
}

/// The type of a symbol over `$i`.
fn over_individuals(alloc: Global, arguments: usize, is_function: bool) -> Result<Profile, NoMemory>
    ensures { IfOk result (λ profile. profile ≡ use_profile arguments is_function) }
{
    let arguments = all_individuals(alloc, arguments)?;
    let result = if is_function {
        Some(Ty::Apply(0, List::new(alloc)))
    } else {
        None
    };
    Ok(Profile {
        parameters: 0,
        arguments,
        result,
    })
}

/// So many times `$i`.
fn all_individuals(alloc: Global, count: usize) -> Result<List<Ty>, NoMemory>
    ensures { IfOk result (λ types. types ≡ replicate count individuals) }
{
    let mut types = List::new(alloc);
    for _i in 0..count {
        types.push(Ty::Apply(0, List::new(alloc)))?;
    }
    Ok(types)
}
