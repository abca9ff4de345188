//! Formulas in negation normal form, in prefix form.

use crate::out::Out;
use crate::put_core::{put_applied, put_binder, put_equation};
use enc_base::Boxed;
use tf_core::{Nnf, Signature};

#[cycle(put_nnf)]
pub fn put_nnf(out: &mut Out, signature: &Signature, formula: &Nnf) {
    match formula {
        Nnf::True => out.put(b"$true"),
        Nnf::False => out.put(b"$false"),
        Nnf::Atom(positive, symbol, types, terms) => {
            out.put(if *positive { b"" } else { b"~" });
            put_applied(out, signature, *symbol, terms.as_slice(), types.as_slice())
        }
        Nnf::Equation(positive, ty, left, right) => {
            let word: &[u8] = if *positive { b"=" } else { b"!=" };
            put_equation(out, signature, word, ty, left, right)
        }
        Nnf::And(parts) => put_all(out, signature, b"&(", parts.as_slice()),
        Nnf::Or(parts) => put_all(out, signature, b"|(", parts.as_slice()),
        Nnf::ForAll(ty, body) => {
            put_binder(out, signature, b"!", ty);
            put_body(out, signature, body)
        }
        Nnf::Exists(ty, body) => {
            put_binder(out, signature, b"?", ty);
            put_body(out, signature, body)
        }
    }
}

#[cycle(put_nnf)]
fn put_body(out: &mut Out, signature: &Signature, body: &Boxed<Nnf>) {
    out.put(b"(");
    put_nnf(out, signature, body.get());
    out.put(b")")
}

#[cycle(put_nnf)]
fn put_all(out: &mut Out, signature: &Signature, open: &[u8], parts: &[Nnf]) {
    out.put(open);
    let mut before: &[u8] = b"";
    for part in parts {
        out.put(before);
        put_nnf(out, signature, part);
        before = b",";
    }
    out.put(b")")
}
