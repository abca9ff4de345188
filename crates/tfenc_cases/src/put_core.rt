//! Types, terms and formulas of problems, in prefix form.

use crate::out::Out;
use enc_base::Boxed;
use tf_core::{Constructor, Formula, Signature, Term, Ty};

/// A type over these constructors. A number that is none of theirs stands behind a `T`.
#[cycle(put_type)]
pub fn put_type(out: &mut Out, constructors: &[Constructor], ty: &Ty) {
    match ty {
        Ty::Var(i) => {
            out.put(b"@");
            out.show(i)
        }
        Ty::Apply(c, types) => {
            match constructors.get(*c as usize) {
                Some(constructor) => out.name(&constructor.name),
                None => {
                    out.put(b"T");
                    out.show(c);
                }
            }
            if types.as_slice().is_empty() {
                return;
            }
            put_types(out, constructors, b"(", types.as_slice(), b")")
        }
    }
}

/// Types with commas between them, between these words.
#[cycle(put_type)]
pub fn put_types(
    out: &mut Out,
    constructors: &[Constructor],
    open: &[u8],
    types: &[Ty],
    close: &[u8],
) {
    out.put(open);
    let mut before: &[u8] = b"";
    for ty in types {
        out.put(before);
        put_type(out, constructors, ty);
        before = b",";
    }
    out.put(close)
}

/// The types that a symbol or an equation stands at, where there are any.
pub fn put_instance(out: &mut Out, signature: &Signature, types: &[Ty]) {
    if types.is_empty() {
        return;
    }
    put_types(out, signature.constructors.as_slice(), b"<", types, b">")
}

/// The name of a symbol. A number that is none of the signature's stands behind a question mark.
fn put_symbol(out: &mut Out, signature: &Signature, symbol: u32) {
    match signature.symbols.as_slice().get(symbol as usize) {
        Some(symbol) => out.name(&symbol.name),
        None => {
            out.put(b"?");
            out.show(&symbol)
        }
    }
}

#[cycle(put_term)]
pub fn put_term(out: &mut Out, signature: &Signature, term: &Term) {
    match term {
        Term::Var(i) => {
            out.put(b"#");
            out.show(i)
        }
        Term::Apply(symbol, types, terms) => {
            put_applied(out, signature, *symbol, terms.as_slice(), types.as_slice())
        }
    }
}

/// A symbol at its types and terms.
#[cycle(put_term)]
pub fn put_applied(
    out: &mut Out,
    signature: &Signature,
    symbol: u32,
    terms: &[Term],
    types: &[Ty],
) {
    put_symbol(out, signature, symbol);
    put_instance(out, signature, types);
    let mut before: &[u8] = b"(";
    for term in terms {
        out.put(before);
        put_term(out, signature, term);
        before = b",";
    }
    out.put(if terms.is_empty() { b"" } else { b")" })
}

/// An equation, behind its word and its type.
pub fn put_equation(
    out: &mut Out,
    signature: &Signature,
    word: &[u8],
    ty: &Ty,
    left: &Term,
    right: &Term,
) {
    put_typed(out, signature, word, ty);
    out.put(b"(");
    put_term(out, signature, left);
    out.put(b",");
    put_term(out, signature, right);
    out.put(b")")
}

// a word and a type
fn put_typed(out: &mut Out, signature: &Signature, word: &[u8], ty: &Ty) {
    out.put(word);
    out.put(b"<");
    put_type(out, signature.constructors.as_slice(), ty);
    out.put(b">")
}

/// A binder with its type.
pub fn put_binder(out: &mut Out, signature: &Signature, word: &[u8], ty: &Ty) {
    out.put(word);
    out.put(b"[");
    put_type(out, signature.constructors.as_slice(), ty);
    out.put(b"]")
}

#[cycle(put_formula)]
pub fn put_formula(out: &mut Out, signature: &Signature, formula: &Formula) {
    match formula {
        Formula::True => out.put(b"$true"),
        Formula::False => out.put(b"$false"),
        Formula::Atom(symbol, types, terms) => {
            put_applied(out, signature, *symbol, terms.as_slice(), types.as_slice())
        }
        Formula::Equal(ty, left, right) => put_equation(out, signature, b"=", ty, left, right),
        Formula::Not(part) => put_part(out, signature, b"~(", part, b")"),
        Formula::And(parts) => put_all(out, signature, b"&", parts.as_slice()),
        Formula::Or(parts) => put_all(out, signature, b"|", parts.as_slice()),
        Formula::Implies(left, right) => {
            put_part(out, signature, b"=>(", left, b",");
            put_part(out, signature, b"", right, b")");
        }
        Formula::If(left, right) => {
            put_part(out, signature, b"<=(", left, b",");
            put_part(out, signature, b"", right, b")");
        }
        Formula::Iff(left, right) => {
            put_part(out, signature, b"<=>(", left, b",");
            put_part(out, signature, b"", right, b")");
        }
        Formula::Xor(left, right) => {
            put_part(out, signature, b"<~>(", left, b",");
            put_part(out, signature, b"", right, b")");
        }
        Formula::Nand(left, right) => {
            put_part(out, signature, b"~&(", left, b",");
            put_part(out, signature, b"", right, b")");
        }
        Formula::Nor(left, right) => {
            put_part(out, signature, b"~|(", left, b",");
            put_part(out, signature, b"", right, b")");
        }
        Formula::ForAll(ty, body) => {
            put_binder(out, signature, b"!", ty);
            put_part(out, signature, b"(", body, b")")
        }
        Formula::Exists(ty, body) => {
            put_binder(out, signature, b"?", ty);
            put_part(out, signature, b"(", body, b")")
        }
    }
}

// a formula between two words
#[cycle(put_formula)]
fn put_part(
    out: &mut Out,
    signature: &Signature,
    before: &[u8],
    part: &Boxed<Formula>,
    after: &[u8],
) {
    out.put(before);
    put_formula(out, signature, part.get());
    out.put(after);
}

#[cycle(put_formula)]
fn put_all(out: &mut Out, signature: &Signature, word: &[u8], parts: &[Formula]) {
    out.put(word);
    out.put(b"(");
    let mut before: &[u8] = b"";
    for part in parts {
        out.put(before);
        put_formula(out, signature, part);
        before = b",";
    }
    out.put(b")")
}
