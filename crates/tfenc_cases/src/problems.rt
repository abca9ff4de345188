//! Problems, normal problems, and parts of them on other signatures.

ghost use Rattle.tf_core.specs.Sound.{IsSound, IsSoundNormal};

use crate::call::Call;
use crate::given::{normal_of, problem_of};
use crate::out::Out;
use crate::put_problem::{put_normal, put_problem};
use crate::stop::Stop;
use std::fmt::Display;
use tf_core::{
    Nnf, Normal, Problem, Signature, Term, copy_constructors, copy_normal_formulas, copy_stated,
    copy_symbols,
};

/// Whether the call is one of this layer, which is then made.
pub fn answer(name: &[u8], call: &mut Call<'_>, out: &mut Out) -> Result<bool, Stop> {
    match name {
        b"check" => check(call, out)?,
        b"symbols" => symbols(call, out)?,
        b"counts" => counts(call, out)?,
        b"normal" => normal(call, out)?,
        b"graft" => graft(call, out)?,
        _ => return Ok(false),
    }
    Ok(true)
}

fn check(call: &Call<'_>, out: &mut Out) -> Result<(), Stop> {
    let problem = problem_of(call.alloc, call.text())?;
    put_problem(out, &problem);
    Ok(())
}

fn symbols(call: &Call<'_>, out: &mut Out) -> Result<(), Stop> {
    let problem = problem_of(call.alloc, call.text())?;
    out.begin();
    put_fact(
        out,
        b"constructors ",
        &problem.signature.constructors.as_slice().len(),
    );
    put_fact(
        out,
        b", symbols ",
        &problem.signature.symbols.as_slice().len(),
    );
    out.end();
    Ok(())
}

// words, and a value
fn put_fact(out: &mut Out, words: &[u8], value: &impl Display) {
    out.put(words);
    out.show(value);
}

fn counts(call: &Call<'_>, out: &mut Out) -> Result<(), Stop> {
    let problem = problem_of(call.alloc, call.text())?;
    count(out, &problem)
}

fn count(out: &mut Out, problem: &Problem) -> Result<(), Stop>
    requires sound { IsSound problem.now }
{
    let normal = normal_of(out.alloc, problem)?;
    put_counts(out, problem)?;
    put_normal_counts(out, &normal)
}

fn put_counts(out: &mut Out, problem: &Problem) -> Result<(), Stop>
    requires sound { IsSound problem.now }
{
    let typed = problem.check(out.alloc)?;
    out.begin();
    put_fact(out, b"problem: well typed ", &typed);
    put_fact(out, b", most types ", &problem.most_types());
    put_fact(out, b", most terms ", &problem.most_terms());
    out.end();
    Ok(())
}

fn put_normal_counts(out: &mut Out, normal: &Normal) -> Result<(), Stop>
    requires sound { IsSoundNormal normal.now }
{
    let typed = normal.check(out.alloc)?;
    out.begin();
    put_fact(out, b"normal: well typed ", &typed);
    put_fact(out, b", most types ", &normal.most_types());
    put_fact(out, b", most terms ", &normal.most_terms());
    put_fact(out, b", monomorphic ", &normal.is_monomorphic());
    put_fact(out, b", fresh ", &normal.fresh);
    put_fact(out, b", nodes ", &nodes(normal));
    out.end();
    Ok(())
}

// the nodes of all formulas
fn nodes(normal: &Normal) -> u64 {
    let mut sum = 0u64;
    for formula in normal.formulas.as_slice() {
        sum = sum.saturating_add(formula_nodes(&formula.body));
    }
    sum
}

#[cycle(formula_nodes)]
fn formula_nodes(formula: &Nnf) -> u64 {
    let below = match formula {
        Nnf::True => 0,
        Nnf::False => 0,
        Nnf::Atom(_, _, _, terms) => terms_nodes(terms.as_slice()),
        Nnf::Equation(_, _, left, right) => term_nodes(left).saturating_add(term_nodes(right)),
        Nnf::And(parts) => formulas_nodes(parts.as_slice()),
        Nnf::Or(parts) => formulas_nodes(parts.as_slice()),
        Nnf::ForAll(_, body) => formula_nodes(body.get()),
        Nnf::Exists(_, body) => formula_nodes(body.get()),
    };
    below.saturating_add(1)
}

#[cycle(formula_nodes)]
fn formulas_nodes(parts: &[Nnf]) -> u64 {
    let mut sum = 0u64;
    for part in parts {
        sum = sum.saturating_add(formula_nodes(part));
    }
    sum
}

#[cycle(term_nodes)]
fn term_nodes(term: &Term) -> u64 {
    match term {
        Term::Var(_) => 1,
        Term::Apply(_, _, terms) => terms_nodes(terms.as_slice()).saturating_add(1),
    }
}

#[cycle(term_nodes)]
fn terms_nodes(terms: &[Term]) -> u64 {
    let mut sum = 0u64;
    for term in terms {
        sum = sum.saturating_add(term_nodes(term));
    }
    sum
}

fn normal(call: &Call<'_>, out: &mut Out) -> Result<(), Stop> {
    let problem = problem_of(call.alloc, call.text())?;
    let normal = normal_of(call.alloc, &problem)?;
    put_normal(out, &normal);
    Ok(())
}

// symbols on other constructors, and formulas on another signature
fn graft(call: &Call<'_>, out: &mut Out) -> Result<(), Stop> {
    let problem = problem_of(call.alloc, call.texts.problem.as_slice())?;
    let other = problem_of(call.alloc, call.texts.other.as_slice())?;
    graft_on(out, &problem, &other)
}

fn graft_on(out: &mut Out, problem: &Problem, other: &Problem) -> Result<(), Stop>
    requires sound { IsSound problem.now }
    requires other_sound { IsSound other.now }
{
    let normal = normal_of(out.alloc, problem)?;
    let other_normal = normal_of(out.alloc, other)?;
    graft_signature(out, &problem.signature, &other.signature)?;
    graft_problem(out, problem, &other.signature)?;
    graft_normal(out, &normal, &other_normal)
}

fn graft_signature(out: &mut Out, signature: &Signature, other: &Signature) -> Result<(), Stop> {
    let grafted = Signature {
        constructors: copy_constructors(out.alloc, other.constructors.as_slice())?,
        symbols: copy_symbols(out.alloc, signature.symbols.as_slice())?,
    };
    out.told(b"signature ", &grafted.check());
    Ok(())
}

fn graft_problem(out: &mut Out, problem: &Problem, other: &Signature) -> Result<(), Stop> {
    let grafted = Problem {
        signature: other.copy(out.alloc)?,
        formulas: copy_stated(out.alloc, problem.formulas.as_slice())?,
    };
    out.told(b"problem ", &grafted.check(out.alloc)?);
    Ok(())
}

fn graft_normal(out: &mut Out, normal: &Normal, other: &Normal) -> Result<(), Stop> {
    let grafted = Normal {
        signature: other.signature.copy(out.alloc)?,
        formulas: copy_normal_formulas(out.alloc, normal.formulas.as_slice())?,
        fresh: other.fresh,
    };
    out.told(b"normal ", &grafted.check(out.alloc)?);
    Ok(())
}
