//! Signatures and problems, line by line.

use crate::out::Out;
use crate::put_core::{put_formula, put_type, put_types};
use crate::put_normal::put_nnf;
use enc_base::Name;
use tf_core::{Constructor, Normal, NormalFormula, Problem, Role, Signature, Stated, Symbol, Ty};

fn put_constructors(out: &mut Out, constructors: &[Constructor]) {
    out.begin();
    out.put(b"types");
    for constructor in constructors {
        out.put(b" ");
        out.name(&constructor.name);
        out.put(b"/");
        out.show(&constructor.arity);
    }
    out.end()
}

/// Argument types and what they give.
pub fn put_arrow(
    out: &mut Out,
    constructors: &[Constructor],
    arguments: &[Ty],
    gives: &Option<Ty>,
) {
    put_types(out, constructors, b"(", arguments, b") > ");
    match gives {
        Some(ty) => put_type(out, constructors, ty),
        None => out.put(b"$o"),
    }
}

fn put_symbol(out: &mut Out, constructors: &[Constructor], symbol: &Symbol) {
    put_head(out, b"symbol ", &symbol.name, symbol.parameters);
    put_arrow(
        out,
        constructors,
        symbol.arguments.as_slice(),
        &symbol.result,
    );
    out.end()
}

// the front of a line: a word, a name and a number
fn put_head(out: &mut Out, word: &[u8], name: &Name, number: u32) {
    out.begin();
    out.put(word);
    out.name(name);
    out.put(b"/");
    out.show(&number);
    out.put(b": ")
}

fn put_signature(out: &mut Out, signature: &Signature) {
    let constructors = signature.constructors.as_slice();
    put_constructors(out, constructors);
    for symbol in signature.symbols.as_slice() {
        put_symbol(out, constructors, symbol);
    }
}

fn put_stated(out: &mut Out, signature: &Signature, stated: &Stated) {
    let word: &[u8] = match stated.role {
        Role::Hypothesis => b"hypothesis ",
        Role::Conjecture => b"conjecture ",
    };
    put_head(out, word, &stated.name, stated.type_variables);
    put_formula(out, signature, &stated.body);
    out.end()
}

pub fn put_problem(out: &mut Out, problem: &Problem) {
    put_signature(out, &problem.signature);
    for stated in problem.formulas.as_slice() {
        put_stated(out, &problem.signature, stated);
    }
}

fn put_normal_formula(out: &mut Out, signature: &Signature, formula: &NormalFormula) {
    let word: &[u8] = if formula.negated {
        b"negated "
    } else {
        b"formula "
    };
    put_head(out, word, &formula.name, formula.type_variables);
    put_nnf(out, signature, &formula.body);
    out.end()
}

pub fn put_normal(out: &mut Out, normal: &Normal) {
    put_signature(out, &normal.signature);
    out.begin();
    out.put(b"fresh ");
    out.show(&normal.fresh);
    out.end();
    for formula in normal.formulas.as_slice() {
        put_normal_formula(out, &normal.signature, formula);
    }
}
