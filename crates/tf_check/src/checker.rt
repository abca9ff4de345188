//! The checker: three passes over a file.

ghost use Rattle.std.specs.Prelude.{◌≡◌, ◌≤◌, false, [], IfOk, IfErr, OnOk};
ghost use Rattle.tf_core.specs.Sound.{IsSound};
ghost use Rattle.tptp_syntax.specs.FileSizes.{formula_nodes, file_size};
ghost use Rattle.tf_check.specs.Answers.{Answers, IsFirst};
ghost use Rattle.tf_check.specs.Bound.{IsReady, Keeps};
ghost use Rattle.tf_check.specs.Entries.{statements, statement_at};
ghost use Rattle.tf_check.specs.Faults.{faults, is_conjecture as states_conjecture, role_of as core_role, visited_statement, visited_statements};
ghost use Rattle.tf_check.specs.Limits.{IsWithin, most_nodes};
ghost use Rattle.tf_check.specs.Names.{parameters_in};
ghost use Rattle.tf_check.specs.Signature.{names_stated};
ghost use Rattle.tf_check.specs.Passes.{file_of};
ghost use Rattle.tf_check.specs.Table.{with_uses};
ghost use Rattle.tf_check.specs.Typing.{IsTyped};

use crate::context::Context;
use crate::declarations::{declare_constructors, declare_symbols};
use crate::error::TypeError;
use crate::formulas::{formula_of, prefix_types};
use crate::names::add_formula;
use crate::numbers::scope_over;
use crate::scope::Scope;
use crate::table::Table;
use enc_base::{List, Name, NoMemory};
use std::alloc::Global;
use tf_core::{Problem, Role, Stated};
use tptp_syntax::{Entry, File, RawFormula, StatedRole};

/// The problem that the file stands for, or its first fault.
///
/// The signature is gathered first: from the declarations, which are checked on the way, and from the
/// names in the formulas. Then each formula is checked under the whole signature.
pub fn check(alloc: Global, file: &File) -> Result<Problem, TypeError>
    requires within { IsWithin file.now }
    ensures exact { IfOk result (IsTyped file.now) }
    ensures refused { IfErr result (IsFirst (faults file.now)) }
    ensures sound { IfOk result IsSound }
{
    let entries = file.entries.as_slice();
    let mut table = Table::new(alloc)?;
    declare_constructors(alloc, &mut table, entries)?;
    declare_symbols(alloc, &mut table, entries)?;
    add_names(alloc, &mut table, entries)?;
    let formulas = statements_of(alloc, &table, entries)?;
    Ok(Problem {
        signature: table.into_signature(alloc)?,
        formulas,
    })
}

/// Adds the names in the formulas that are not declared.
fn add_names<'a>(alloc: Global, table: &mut Table<'a>, entries: &'a [Entry]) -> Result<(), NoMemory>
    ensures { OnOk result (table.new ≡ with_uses table.old
        (names_stated (parameters_in table.old.symbols) (statements (file_of entries.now)))) }
{
    for entry in entries {
        match entry {
            Entry::Declaration { .. } => {}
            Entry::Statement {
                name: _,
                role: _,
                formula,
            } => add_formula(alloc, table, formula)?,
        }
    }
    Ok(())
}

/// The third pass: the statements.
fn statements_of(alloc: Global, table: &Table, entries: &[Entry]) -> Result<List<Stated>, TypeError>
    requires { file_size (file_of entries.now) ≤ most_nodes }
    ensures { Answers (visited_statements table.now false (statements (file_of entries.now))) result }
{
    let mut formulas = List::new(alloc);
    let mut conjectured = false;
    let mut scope = scope_over(alloc, table)?;
    for (i, entry) in entries.iter().enumerate() {
        match entry {
            Entry::Declaration { .. } => {}
            Entry::Statement {
                name,
                role,
                formula,
            } => {
                let context = Context {
                    alloc,
                    entry: i,
                    table,
                };
                let stated = statement_of(&context, conjectured, name, *role, formula, &mut scope)?;
                formulas.push(stated)?;
                conjectured = conjectured || is_conjecture(*role);
            }
        }
    }
    Ok(formulas)
}

/// Whether the role is that of a conjecture.
fn is_conjecture(role: StatedRole) -> bool
    ensures { result ≡ states_conjecture role }
{
    match role {
        StatedRole::Hypothesis => false,
        StatedRole::Conjecture => true,
    }
}

/// The role of the core formula.
fn role_of(role: StatedRole) -> Role
    ensures { result ≡ core_role role }
{
    match role {
        StatedRole::Hypothesis => Role::Hypothesis,
        StatedRole::Conjecture => Role::Conjecture,
    }
}

/// A statement behind others, among which is a conjecture or not.
fn statement_of<'a>(
    context: &Context,
    conjectured: bool,
    label: &Name,
    role: StatedRole,
    formula: &'a RawFormula,
    scope: &mut Scope<'a>,
) -> Result<Stated, TypeError>
    requires size { formula_nodes formula.now ≤ most_nodes }
    requires ready { IsReady context.now scope.old }
    requires unbound { scope.old.names ≡ [] }
    ensures exact { Answers
        (visited_statement context.now.table.now conjectured
        (statement_at context.now.entry label.now role formula.now))
        result }
    ensures kept { OnOk result (Keeps scope.old scope.new) }
{
    if conjectured && is_conjecture(role) {
        return Err(TypeError::SecondConjecture {
            entry: context.entry,
        });
    }
    let body = formula_of(context, formula, true, scope)?;
    Ok(Stated {
        name: label.copy(context.alloc)?,
        role: role_of(role),
        type_variables: prefix_types(formula),
        body,
    })
}
