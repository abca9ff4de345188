//! The items of a typed table, one after another.
#![tactic(auto)]

ghost use Rattle.std.specs.Prelude.{◌≡◌, ◌<◌, ℕ, List, false, true, slice_get, Some, OnOk};
ghost use Rattle.tptp_phrases.specs.Readers.{goes_on, seen};
ghost use Rattle.model_tables.specs.declared.form.Kind.TheVariants as kind;
ghost use Rattle.model_tables.specs.Grammar.{Table};
ghost use Rattle.model_tables.specs.Faults.{limit_faults_of};
ghost use Rattle.model_tables.specs.Typed.{entries_by_kind};
ghost use Rattle.model_tables.specs.Writable.{constructor_names, symbol_names};
ghost use Rattle.model_tables.specs.Ahead.{any_word};
ghost use Rattle.model_tables.specs.Leads.{GoesOn};
ghost use Rattle.model_tables.specs.Checks.{Checks};
ghost use Rattle.model_tables.specs.Marks.{missing_among};
ghost use Rattle.model_tables.specs.ReadTyped.{AreKnown, IsPart, IsLimited, IsKept, IsSaid};
ghost use Rattle.model_tables.specs.ReadTyped.{Answer, IsReading, IsRead, ReadsItem, ReadsOn};
ghost use Rattle.model_tables.specs.ReadTyped.{TakesItem, missing_in, constructor_item, symbol_item};

use crate::checks::{check_limit, check_missing};
use crate::counted::CountedTables;
use crate::ends::{check_constructor, check_symbol};
use crate::error::TableError;
use crate::form::{Form, Kind};
use crate::known::Known;
use crate::partial::Partial;
use crate::parts::{ended, entries, heading};
use crate::reader::Reader;
use enc_base::List;
use std::alloc::Global;

impl Known<'_> {
    /// Checks the limit on entries, once the tables of all constructors are read.
    fn check_all(&self, alloc: Global, part: &Partial) -> Result<(), TableError>
        requires known { AreKnown self.now }
        requires part { IsPart self.now.signature.now part.now }
        ensures checks { (t : Table) → IsSaid self.now.signature.now t part.now
            → Checks (limit_faults_of (entries_by_kind self.now.signature.now t kind.Constructor))
            result }
        ensures limited { OnOk result (IsLimited self.now.signature.now part.now) }
    {
        if !part.constructors.all() {
            return Ok(());
        }
        let counted = CountedTables {
            signature: self.signature,
            structure: &part.structure,
        };
        check_limit(counted.entries(alloc)?)
    }

    /// Takes the table of a constructor at the end of its item.
    fn take_constructor(
        &self,
        alloc: Global,
        part: &mut Partial,
        at: usize,
        entries: List<u32>,
    ) -> Result<(), TableError>
        requires known { AreKnown self.now }
        requires kept { IsKept self.now.signature.now part.old }
        requires new { slice_get part.old.constructors at ≡ Some false }
        ensures takes { (before : Table) (name : List ℕ)
            → slice_get (constructor_names self.now.signature.now) at ≡ Some name
            → IsSaid self.now.signature.now before part.old
            → TakesItem self.now.signature.now before (constructor_item name entries) part.new
            result }
        ensures kept { OnOk result (IsKept self.now.signature.now part.new) }
        ensures fewer { OnOk result (missing_in part.new < missing_in part.old) }
    {
        let constructor = &self.signature.constructors.as_slice()[at];
        let members = part.structure.sizes.as_slice().len() as u64;
        check_constructor(alloc, constructor, members, entries.as_slice())?;
        part.put_constructor(alloc, at, entries);
        self.check_all(alloc, part)
    }

    /// Takes the table of a symbol at the end of its item.
    fn take_symbol(
        &self,
        alloc: Global,
        part: &mut Partial,
        at: usize,
        entries: List<u32>,
    ) -> Result<(), TableError>
        requires known { AreKnown self.now }
        requires kept { IsKept self.now.signature.now part.old }
        requires all { missing_among part.old.constructors ≡ 0 }
        requires new { slice_get part.old.symbols at ≡ Some false }
        ensures takes { (before : Table) (name : List ℕ)
            → slice_get (symbol_names self.now.signature.now) at ≡ Some name
            → IsSaid self.now.signature.now before part.old
            → TakesItem self.now.signature.now before (symbol_item name entries) part.new result }
        ensures kept { OnOk result (IsKept self.now.signature.now part.new) }
        ensures fewer { OnOk result (missing_in part.new < missing_in part.old) }
    {
        let symbol = &self.signature.symbols.as_slice()[at];
        let structure = &part.structure;
        check_symbol(alloc, self.signature, structure, symbol, entries.as_slice())?;
        part.put_symbol(alloc, at, entries);
        Ok(())
    }

    /// Reads the rest of a constructor's item, from its name on.
    fn read_constructor(
        &self,
        alloc: Global,
        reader: &mut Reader<'_>,
        part: &mut Partial,
        name: &[u8],
        total: usize,
    ) -> Result<(), TableError>
        requires known { AreKnown self.now }
        requires kept { IsKept self.now.signature.now part.old }
        ensures reads { ReadsItem self.now.signature.now total kind.Constructor name.now reader.old
            part.old reader.new part.new result }
        ensures kept { OnOk result (IsKept self.now.signature.now part.new) }
        ensures fewer { OnOk result (missing_in part.new < missing_in part.old) }
    {
        let at = self.constructor(alloc, part, name)?;
        let entries = entries(alloc, reader, total)?;
        self.take_constructor(alloc, part, at, entries)
    }

    /// Reads the rest of a symbol's item, from its name on.
    fn read_symbol(
        &self,
        alloc: Global,
        reader: &mut Reader<'_>,
        part: &mut Partial,
        name: &[u8],
        total: usize,
    ) -> Result<(), TableError>
        requires known { AreKnown self.now }
        requires kept { IsKept self.now.signature.now part.old }
        ensures reads { ReadsItem self.now.signature.now total kind.Symbol name.now reader.old
            part.old reader.new part.new result }
        ensures kept { OnOk result (IsKept self.now.signature.now part.new) }
        ensures fewer { OnOk result (missing_in part.new < missing_in part.old) }
    {
        let at = self.symbol(alloc, part, name)?;
        let entries = entries(alloc, reader, total)?;
        self.take_symbol(alloc, part, at, entries)
    }

    /// Reads an item.
    fn read_item(
        &self,
        alloc: Global,
        reader: &mut Reader<'_>,
        part: &mut Partial,
        total: usize,
    ) -> Result<(), TableError>
        requires known { AreKnown self.now }
        requires kept { IsKept self.now.signature.now part.old }
        requires word { goes_on any_word (seen reader.old) ≡ true }
        ensures reads { ReadsOn self.now.signature.now total reader.old part.old reader.new part.new
            result }
        ensures kept { OnOk result (IsKept self.now.signature.now part.new) }
        ensures fewer { OnOk result (missing_in part.new < missing_in part.old) }
    {
        let (kind, name) = heading(alloc, reader, Form::Typed, total)?;
        match kind {
            Kind::Constructor => self.read_constructor(alloc, reader, part, name.as_slice(), total),
            Kind::Symbol => self.read_symbol(alloc, reader, part, name.as_slice(), total),
            Kind::Function => Err(TableError::UnknownSymbol { name }),
            Kind::Predicate => Err(TableError::UnknownSymbol { name }),
        }
    }

    /// Reads the items, up to where no word stands next. Each item fills a place that was empty.
    pub fn read_items(
        &self,
        alloc: Global,
        reader: &mut Reader<'_>,
        part: &mut Partial,
        total: usize,
    ) -> Result<(), TableError>
        requires known { AreKnown self.now }
        requires kept { IsKept self.now.signature.now part.old }
        ensures reads { ReadsOn self.now.signature.now total reader.old part.old reader.new part.new
            result }
        ensures kept { OnOk result (IsKept self.now.signature.now part.new) }
        ensures end { OnOk result (goes_on any_word (seen reader.new) ≡ false) }
    {
        'items: while reader.sees_word() {
            self.read_item(alloc, reader, part, total)?;
        }
        Ok(())
    }

    /// Checks that the text ends here and that nothing is missing.
    pub fn check_end(
        &self,
        alloc: Global,
        reader: &Reader<'_>,
        part: &Partial,
        total: usize,
    ) -> Result<(), TableError>
        requires known { AreKnown self.now }
        requires part { IsPart self.now.signature.now part.now }
        requires end { goes_on any_word (seen reader.now) ≡ false }
        ensures { (whole : Answer)
            → IsReading self.now.signature.now total whole reader.now part.now
            → GoesOn whole result (IsRead self.now.signature.now whole part.now) }
    {
        ended(reader, total)?;
        check_missing(alloc, self.constructors.first_unmarked(&part.constructors))?;
        check_missing(alloc, self.symbols.first_unmarked(&part.symbols))
    }
}
