//! Declarations of constructors and of symbols.

ghost use Rattle.std.specs.Prelude.{◌≡◌, ◌≤◌, [], ◌∷◌};
ghost use Rattle.tf_check.specs.declared.error.TypeError.TheVariants.{Redeclared};
ghost use Rattle.tf_check.specs.Answers.{IsFirst};
ghost use Rattle.tf_check.specs.Faults.{visited_constructor, visited_symbol};
ghost use Rattle.tf_check.specs.Limits.{most_nodes};
ghost use Rattle.tf_check.specs.Passes.{Declares, AreFew, declaration_at, with_constructor, with_symbol, file_of, constructor_pass, symbol_pass, constructors_alone, declared_signature};
ghost use Rattle.tf_check.specs.Table.{just_individuals};
ghost use Rattle.tptp_syntax.specs.FileSizes.{type_nodes, file_size};

use crate::context::Context;
use crate::error::TypeError;
use crate::kinds::{arity, is_kind};
use crate::scope::Scope;
use crate::table::Table;
use crate::terms::expect_number;
use crate::types::profile_of;
use enc_base::Name;
use std::alloc::Global;
use tptp_syntax::{Entry, TypeExpr};

/// The refusal of a name that is declared already, in another kind or with another type.
fn redeclared(alloc: Global, entry: usize, name: &Name) -> TypeError
    ensures { IsFirst (Redeclared entry name.now ∷ []) result }
{
    match name.copy(alloc) {
        Ok(name) => TypeError::Redeclared { entry, name },
        Err(_) => TypeError::Memory,
    }
}

/// The declaration of a constructor.
fn declare_constructor<'a>(
    alloc: Global,
    table: &mut Table<'a>,
    entry: usize,
    name: &'a Name,
    body: &TypeExpr,
) -> Result<(), TypeError>
    requires nodes { type_nodes body.now ≤ most_nodes }
    requires few { AreFew table.old }
    requires alone { table.old.symbols ≡ [] }
    ensures { let d = declaration_at entry name.now body.now in
        let left = with_constructor table.old d in
        Declares (visited_constructor left d) left table.new result }
{
    let arity = match arity(body) {
        None => return Err(TypeError::BadDeclaration { entry }),
        Some(arity) => arity,
    };
    match table.constructor(name.as_slice()) {
        Some((_, first)) => {
            if first == arity {
                Ok(())
            } else {
                Err(redeclared(alloc, entry, name))
            }
        }
        None => {
            expect_number(table, 0)?;
            table.add_constructor(name.as_slice(), arity)?;
            Ok(())
        }
    }
}

/// The first pass: the declarations of constructors.
pub(crate) fn declare_constructors<'a>(
    alloc: Global,
    table: &mut Table<'a>,
    entries: &'a [Entry],
) -> Result<(), TypeError>
    requires nodes { file_size (file_of entries.now) ≤ most_nodes }
    requires before { table.old ≡ just_individuals }
    ensures { let file = file_of entries.now in
        Declares (constructor_pass file) (constructors_alone file) table.new result }
{
    for (i, entry) in entries.iter().enumerate() {
        match entry {
            Entry::Declaration {
                name: _,
                subject,
                body,
            } => {
                if is_kind(body) {
                    declare_constructor(alloc, table, i, subject, body)?;
                }
            }
            Entry::Statement { .. } => {}
        }
    }
    Ok(())
}

/// The declaration of a symbol.
fn declare_symbol<'a>(
    alloc: Global,
    table: &mut Table<'a>,
    entry: usize,
    name: &'a Name,
    body: &TypeExpr,
) -> Result<(), TypeError>
    requires nodes { type_nodes body.now ≤ most_nodes }
    requires few { AreFew table.old }
    ensures { let d = declaration_at entry name.now body.now in
        let left = with_symbol table.old d in
        Declares (visited_symbol left d) left table.new result }
{
    let profile = {
        let context = Context {
            alloc,
            entry,
            table: &*table,
        };
        let mut scope = Scope::new(alloc);
        profile_of(&context, body, &mut scope)?
    };
    if table.constructor(name.as_slice()).is_some() {
        return Err(redeclared(alloc, entry, name));
    }
    match table.symbol(name.as_slice()) {
        Some((_, first)) => {
            if first.same(&profile) {
                Ok(())
            } else {
                Err(redeclared(alloc, entry, name))
            }
        }
        None => {
            expect_number(table, table.symbol_count())?;
            table.add_symbol(name.as_slice(), profile)?;
            Ok(())
        }
    }
}

/// The second pass: all other declarations.
pub(crate) fn declare_symbols<'a>(
    alloc: Global,
    table: &mut Table<'a>,
    entries: &'a [Entry],
) -> Result<(), TypeError>
    requires nodes { file_size (file_of entries.now) ≤ most_nodes }
    requires before { table.old ≡ constructors_alone (file_of entries.now) }
    requires few { AreFew table.old }
    ensures { let file = file_of entries.now in
        Declares (symbol_pass file) (declared_signature file) table.new result }
{
    for (i, entry) in entries.iter().enumerate() {
        match entry {
            Entry::Declaration {
                name: _,
                subject,
                body,
            } => {
                if !is_kind(body) {
                    declare_symbol(alloc, table, i, subject, body)?;
                }
            }
            Entry::Statement { .. } => {}
        }
    }
    Ok(())
}
