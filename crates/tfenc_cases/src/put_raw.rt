//! Files, types, terms and formulas as they are read, in prefix form.

use crate::out::Out;
use enc_base::Boxed;
use tptp_syntax::{Bound, Entry, RawFormula, RawTerm, StatedRole, TypeExpr};

#[cycle(put_type)]
pub fn put_type(out: &mut Out, ty: &TypeExpr) {
    match ty {
        TypeExpr::Variable(name) => {
            out.put(b"?");
            out.name(name)
        }
        TypeExpr::Apply(name, types) => {
            out.name(name);
            put_types(out, types.as_slice())
        }
        TypeExpr::Individuals => out.put(b"$i"),
        TypeExpr::Truth => out.put(b"$o"),
        TypeExpr::Types => out.put(b"$tType"),
        TypeExpr::Product(types) => {
            out.put(b"*");
            put_types(out, types.as_slice())
        }
        TypeExpr::Map(left, right) => {
            out.put(b">(");
            put_type(out, left.get());
            out.put(b",");
            put_type(out, right.get());
            out.put(b")")
        }
        TypeExpr::Quantified(bounds, body) => {
            out.put(b"!>");
            put_bounds(out, bounds.as_slice());
            out.put(b"(");
            put_type(out, body.get());
            out.put(b")")
        }
    }
}

// types in brackets, or nothing where there are none
#[cycle(put_type)]
fn put_types(out: &mut Out, types: &[TypeExpr]) {
    let mut before: &[u8] = b"(";
    for ty in types {
        out.put(before);
        put_type(out, ty);
        before = b",";
    }
    out.put(if types.is_empty() { b"" } else { b")" })
}

#[cycle(put_type)]
fn put_bounds(out: &mut Out, bounds: &[Bound]) {
    let mut before: &[u8] = b"[";
    for bound in bounds {
        out.put(before);
        put_bound(out, bound);
        before = b",";
    }
    out.put(b"]")
}

#[cycle(put_type)]
fn put_bound(out: &mut Out, bound: &Bound) {
    out.name(&bound.name);
    match &bound.kind {
        Some(kind) => {
            out.put(b": ");
            put_type(out, kind)
        }
        None => {}
    }
}

#[cycle(put_term)]
fn put_term(out: &mut Out, term: &RawTerm) {
    match term {
        RawTerm::Variable(name) => {
            out.put(b"?");
            out.name(name)
        }
        RawTerm::Apply(name, terms) => {
            out.name(name);
            put_terms(out, terms.as_slice())
        }
        RawTerm::Individuals => out.put(b"$i"),
    }
}

// terms in brackets, or nothing where there are none
#[cycle(put_term)]
fn put_terms(out: &mut Out, terms: &[RawTerm]) {
    let mut before: &[u8] = b"(";
    for term in terms {
        out.put(before);
        put_term(out, term);
        before = b",";
    }
    out.put(if terms.is_empty() { b"" } else { b")" })
}

// two terms behind a word
fn put_sides(out: &mut Out, word: &[u8], left: &RawTerm, right: &RawTerm) {
    out.put(word);
    out.put(b"(");
    put_term(out, left);
    out.put(b",");
    put_term(out, right);
    out.put(b")")
}

#[cycle(put_formula)]
pub fn put_formula(out: &mut Out, formula: &RawFormula) {
    match formula {
        RawFormula::True => out.put(b"$true"),
        RawFormula::False => out.put(b"$false"),
        RawFormula::Atom(name, terms) => {
            out.name(name);
            put_terms(out, terms.as_slice())
        }
        RawFormula::Equal(left, right) => put_sides(out, b"=", left, right),
        RawFormula::Unequal(left, right) => put_sides(out, b"!=", left, right),
        RawFormula::Not(part) => put_part(out, b"~(", part, b")"),
        RawFormula::And(parts) => put_all(out, b"&", parts.as_slice()),
        RawFormula::Or(parts) => put_all(out, b"|", parts.as_slice()),
        RawFormula::Implies(left, right) => {
            put_part(out, b"=>(", left, b",");
            put_part(out, b"", right, b")");
        }
        RawFormula::If(left, right) => {
            put_part(out, b"<=(", left, b",");
            put_part(out, b"", right, b")");
        }
        RawFormula::Iff(left, right) => {
            put_part(out, b"<=>(", left, b",");
            put_part(out, b"", right, b")");
        }
        RawFormula::Xor(left, right) => {
            put_part(out, b"<~>(", left, b",");
            put_part(out, b"", right, b")");
        }
        RawFormula::Nand(left, right) => {
            put_part(out, b"~&(", left, b",");
            put_part(out, b"", right, b")");
        }
        RawFormula::Nor(left, right) => {
            put_part(out, b"~|(", left, b",");
            put_part(out, b"", right, b")");
        }
        RawFormula::ForAll(bounds, body) => {
            out.put(b"!");
            put_bounds(out, bounds.as_slice());
            put_part(out, b"(", body, b")")
        }
        RawFormula::Exists(bounds, body) => {
            out.put(b"?");
            put_bounds(out, bounds.as_slice());
            put_part(out, b"(", body, b")")
        }
    }
}

// a formula between two words
#[cycle(put_formula)]
fn put_part(out: &mut Out, before: &[u8], part: &Boxed<RawFormula>, after: &[u8]) {
    out.put(before);
    put_formula(out, part.get());
    out.put(after);
}

#[cycle(put_formula)]
fn put_all(out: &mut Out, word: &[u8], parts: &[RawFormula]) {
    out.put(word);
    let mut before: &[u8] = b"(";
    for part in parts {
        out.put(before);
        put_formula(out, part);
        before = b",";
    }
    out.put(b")")
}

/// A line for an entry.
pub fn put_entry(out: &mut Out, entry: &Entry) {
    out.begin();
    match entry {
        Entry::Declaration {
            name,
            subject,
            body,
        } => {
            out.put(b"declare ");
            out.name(name);
            out.put(b" ");
            out.name(subject);
            out.put(b": ");
            put_type(out, body);
        }
        Entry::Statement {
            name,
            role,
            formula,
        } => {
            out.put(role_word(role));
            out.name(name);
            out.put(b": ");
            put_formula(out, formula);
        }
    }
    out.end()
}

fn role_word(role: &StatedRole) -> &'static [u8] {
    match role {
        StatedRole::Hypothesis => b"hypothesis ",
        StatedRole::Conjecture => b"conjecture ",
    }
}
