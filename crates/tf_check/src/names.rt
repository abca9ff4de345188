//! The names in formulas, which become symbols over `$i` where they are not declared.

ghost use Rattle.std.specs.Prelude.{◌≡◌, ◌++◌, length, flat_map, drop, IfOk, OnOk};
ghost use Rattle.tf_check.specs.Names.{parameters_in, names_of_term, names_of_formula};
ghost use Rattle.tf_check.specs.Table.{with_use, with_uses};

use crate::table::Table;
use enc_base::{Name, NoMemory};
use std::alloc::Global;
use tptp_syntax::{RawFormula, RawTerm};

/// Adds a name at the head of a term or an atom, and gives the arguments that are terms.
fn add_head<'a>(
    alloc: Global,
    table: &mut Table<'a>,
    name: &'a Name,
    parts: &'a [RawTerm],
    is_function: bool,
) -> Result<&'a [RawTerm], NoMemory>
    ensures added { OnOk result (table.new ≡ with_use table.old
        (record { name = name.now; arguments = length parts.now; is_function = is_function })) }
    ensures terms { IfOk result (λ terms.
        terms.now ≡ drop (parameters_in table.old.symbols name.now) parts.now) }
{
    table.add_use(alloc, name.as_slice(), parts.len(), is_function)?;
    let parameters = table.parameters(name.as_slice()) as usize;
    if parameters < parts.len() {
        Ok(&parts[parameters..])
    } else {
        Ok(&[])
    }
}

/// Adds the names of a term.
#[cycle(add_term)]
fn add_term<'a>(alloc: Global, table: &mut Table<'a>, raw: &'a RawTerm) -> Result<(), NoMemory>
    ensures { OnOk result (table.new ≡ with_uses table.old
        (names_of_term (parameters_in table.old.symbols) raw.now)) }
{
    match raw {
        RawTerm::Apply(name, parts) => {
            let terms = add_head(alloc, table, name, parts.as_slice(), true)?;
            add_terms(alloc, table, terms)
        }
        _ => Ok(()),
    }
}

/// Adds the names of terms in turn.
#[cycle(add_term)]
fn add_terms<'a>(alloc: Global, table: &mut Table<'a>, raws: &'a [RawTerm]) -> Result<(), NoMemory>
    ensures { OnOk result (table.new ≡ with_uses table.old
        (flat_map (names_of_term (parameters_in table.old.symbols)) raws.now)) }
{
    for raw in raws {
        add_term(alloc, table, raw)?;
    }
    Ok(())
}

/// Adds the names of a formula.
#[cycle(add_formula)]
pub(crate) fn add_formula<'a>(
    alloc: Global,
    table: &mut Table<'a>,
    raw: &'a RawFormula,
) -> Result<(), NoMemory>
    ensures { OnOk result (table.new ≡ with_uses table.old
        (names_of_formula (parameters_in table.old.symbols) raw.now)) }
{
    match raw {
        RawFormula::True => Ok(()),
        RawFormula::False => Ok(()),
        RawFormula::Atom(name, parts) => {
            let terms = add_head(alloc, table, name, parts.as_slice(), false)?;
            add_terms(alloc, table, terms)
        }
        RawFormula::Equal(left, right) => add_sides(alloc, table, left, right),
        RawFormula::Unequal(left, right) => add_sides(alloc, table, left, right),
        RawFormula::Not(part) => add_formula(alloc, table, part.get()),
        RawFormula::And(parts) => add_parts(alloc, table, parts.as_slice()),
        RawFormula::Or(parts) => add_parts(alloc, table, parts.as_slice()),
        RawFormula::Implies(a, b) => add_both(alloc, table, a.get(), b.get()),
        RawFormula::If(a, b) => add_both(alloc, table, a.get(), b.get()),
        RawFormula::Iff(a, b) => add_both(alloc, table, a.get(), b.get()),
        RawFormula::Xor(a, b) => add_both(alloc, table, a.get(), b.get()),
        RawFormula::Nand(a, b) => add_both(alloc, table, a.get(), b.get()),
        RawFormula::Nor(a, b) => add_both(alloc, table, a.get(), b.get()),
        RawFormula::ForAll(_, body) => add_formula(alloc, table, body.get()),
        RawFormula::Exists(_, body) => add_formula(alloc, table, body.get()),
    }
}

/// Adds the names of the sides of an equation.
fn add_sides<'a>(
    alloc: Global,
    table: &mut Table<'a>,
    left: &'a RawTerm,
    right: &'a RawTerm,
) -> Result<(), NoMemory>
    ensures { OnOk result (table.new ≡ with_uses table.old
        (names_of_term (parameters_in table.old.symbols) left.now
        ++ names_of_term (parameters_in table.old.symbols) right.now)) }
{
    add_term(alloc, table, left)?;
    add_term(alloc, table, right)
}

/// Adds the names of two parts.
#[cycle(add_formula)]
fn add_both<'a>(
    alloc: Global,
    table: &mut Table<'a>,
    left: &'a RawFormula,
    right: &'a RawFormula,
) -> Result<(), NoMemory>
    ensures { OnOk result (table.new ≡ with_uses table.old
        (names_of_formula (parameters_in table.old.symbols) left.now
        ++ names_of_formula (parameters_in table.old.symbols) right.now)) }
{
    add_formula(alloc, table, left)?;
    add_formula(alloc, table, right)
}

/// Adds the names of the parts of a chain.
#[cycle(add_formula)]
fn add_parts<'a>(
    alloc: Global,
    table: &mut Table<'a>,
    parts: &'a [RawFormula],
) -> Result<(), NoMemory>
    ensures { OnOk result (table.new ≡ with_uses table.old
        (flat_map (names_of_formula (parameters_in table.old.symbols)) parts.now)) }
{
    for part in parts {
        add_formula(alloc, table, part)?;
    }
    Ok(())
}
