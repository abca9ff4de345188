ghost use Rattle.std.specs.Prelude.{◌≡◌, ◌+◌, ◌≤◌, ◌^◌, ◌<◌, true, length, map, Some, None, IfOk, IfErr, MatchOption};
ghost use Rattle.std.specs.List.{sum_by};
ghost use Rattle.enc_base.specs.Counts.{in_64_bits};
ghost use Rattle.tf_core.specs.Sound.{IsSound, IsSoundNormal};
ghost use Rattle.tf_nnf.specs.Nodes.{stated_nodes, normal_nodes};
ghost use Rattle.tf_nnf.specs.NormalForm as specs;
ghost use Rattle.tf_nnf.specs.NormalForm.{conjecture_of, variables_of, fresh_types, normal_of};
ghost use Rattle.tf_nnf.specs.Refusal.{most_nodes, IsRefused};

use crate::error::NormalError;
use crate::form::form;
use crate::instance::Fresh;
use crate::nodes::count;
use enc_base::{List, Name, NoMemory};
use std::alloc::Global;
use tf_core::{
    Constructor, Normal, NormalFormula, Problem, Role, Signature, Stated, copy_constructors,
    copy_symbols,
};

/// The most nodes that a normal problem may have.
const MOST_NODES: u64 = 4_194_304;

/// The normal problem: each hypothesis in negation normal form, the conjecture negated in its place,
/// with fresh constructors for its type variables.
///
/// Refused where it would have more than 4,194,304 nodes. They are counted first, and nothing is
/// made of a problem that is refused. Nodes are those of formulas and terms, a literal being one
/// besides its terms; types aren't counted.
pub fn normalise(alloc: Global, problem: &Problem) -> Result<Normal, NormalError>
    requires sound { IsSound problem.now }
    ensures exact { IfOk result (λ normal. normal ≡ normal_of problem.now) }
    ensures within { IfOk result (λ normal. normal_nodes normal ≤ most_nodes) }
    ensures sound { IfOk result IsSoundNormal }
    ensures refused { IfErr result (IsRefused (normal_of problem.now)) }
{
    let stated = problem.formulas.as_slice();
    let nodes = problem_nodes(stated);
    if nodes > MOST_NODES {
        return Err(NormalError::TooLarge { nodes });
    }
    let normal = made(alloc, problem)?;
    Ok(normal)
}

// the normal problem, of any size
fn made(alloc: Global, problem: &Problem) -> Result<Normal, NoMemory>
    requires sound { IsSound problem.now }
    ensures { IfOk result (λ normal. normal ≡ normal_of problem.now) }
{
    let stated = problem.formulas.as_slice();
    let fresh = fresh_count(stated);
    let first = problem.signature.constructors.as_slice().len() as u32;
    let formulas = normal_formulas(
        alloc,
        Fresh {
            first,
            count: fresh,
        },
        stated,
    )?;
    let signature = with_fresh(alloc, &problem.signature, fresh)?;
    Ok(Normal {
        signature,
        formulas,
        fresh,
    })
}

// how many nodes the normal problem has
fn problem_nodes(formulas: &[Stated]) -> u64
    ensures { result ≡ in_64_bits (sum_by stated_nodes formulas.now) }
{
    let mut nodes = 0u64;
    for stated in formulas {
        nodes = nodes.saturating_add(nodes_of(stated));
    }
    nodes
}

fn nodes_of(stated: &Stated) -> u64
    ensures { result ≡ in_64_bits (stated_nodes stated.now) }
{
    let nodes = count(&stated.body);
    match stated.role {
        Role::Hypothesis => nodes.positive,
        Role::Conjecture => nodes.negative,
    }
}

// how many type variables the conjecture has
fn fresh_count(formulas: &[Stated]) -> u32
    ensures { result ≡ variables_of (conjecture_of formulas.now) }
{
    match conjecture(formulas) {
        Some(stated) => stated.type_variables,
        None => 0,
    }
}

/// The conjecture: the first, where there are several.
pub fn conjecture(formulas: &[Stated]) -> Option<&Stated>
    ensures { MatchOption result (conjecture_of formulas.now ≡ None) (λ stated. conjecture_of formulas.now ≡ Some stated.now) }
{
    for stated in formulas {
        if let Role::Conjecture = stated.role {
            return Some(stated);
        }
    }
    None
}

fn normal_formulas(
    alloc: Global,
    fresh: Fresh,
    formulas: &[Stated],
) -> Result<List<NormalFormula>, NoMemory>
    ensures { IfOk result (λ made. made ≡ map (specs.normal_formula (fresh_types fresh.first fresh.count)) formulas.now) }
{
    let mut made = List::new(alloc);
    for stated in formulas {
        made.push(normal_formula(alloc, fresh, stated)?)?;
    }
    Ok(made)
}

fn normal_formula(alloc: Global, fresh: Fresh, stated: &Stated) -> Result<NormalFormula, NoMemory>
    ensures { IfOk result (λ made. made ≡ specs.normal_formula (fresh_types fresh.first fresh.count) stated.now) }
{
    let name = stated.name.copy(alloc)?;
    match stated.role {
        Role::Hypothesis => Ok(NormalFormula {
            name,
            negated: false,
            type_variables: stated.type_variables,
            body: form(alloc, Fresh { first: 0, count: 0 }, true, &stated.body)?,
        }),
        Role::Conjecture => Ok(NormalFormula {
            name,
            negated: true,
            type_variables: 0,
            body: form(alloc, fresh, false, &stated.body)?,
        }),
    }
}

// a copy of the signature with so many fresh constructors at the end
fn with_fresh(alloc: Global, signature: &Signature, count: u32) -> Result<Signature, NoMemory>
    ensures { IfOk result (λ made. made ≡ specs.with_fresh signature.now count) }
{
    let mut constructors = copy_constructors(alloc, signature.constructors.as_slice())?;
    for i in 0..count {
        constructors.push(fresh_constructor(alloc, i)?)?;
    }
    let symbols = copy_symbols(alloc, signature.symbols.as_slice())?;
    Ok(Signature {
        constructors,
        symbols,
    })
}

fn fresh_constructor(alloc: Global, i: u32) -> Result<Constructor, NoMemory>
    ensures { IfOk result (λ made. made ≡ specs.fresh_constructor i) }
{
    let name = format!(in alloc; "fresh_{i}")?;
    Ok(Constructor {
        name: Name::from_slice(alloc, name.as_bytes())?,
        arity: 0,
    })
}
