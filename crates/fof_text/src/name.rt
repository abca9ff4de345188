//! Names of symbols and formulas, and variables, as words.

ghost use Rattle.std.specs.Prelude.{◌≡◌, ◌∷◌};
ghost use Rattle.std.specs.List.{list_all};
ghost use Rattle.std.specs.Char.{is_ascii_digit};
ghost use Rattle.enc_base.specs.Pending.{Puts};
ghost use Rattle.fof_text.specs.Names.{name_at};
ghost use Rattle.fof_text.specs.Pieces.{part};
ghost use Rattle.fof_text.specs.Written as words;

use crate::put::{is_lower, put_name, put_number};
use enc_base::{Name, Pending, Sink};

fn all_digits(bytes: &[u8]) -> bool
    ensures { result ≡ list_all is_ascii_digit bytes.now }
{
    bytes.iter().all(|byte| byte.is_ascii_digit())
}

/// Puts the name of the symbol with this index.
pub(crate) fn put_symbol<O: Sink>(symbol: u32, names: &[Name], pending: &mut Pending, out: &mut O)
    ensures { Puts O.bytes O.faults pending.old pending.new out.old out.new
        (part (λ rest. words.name_word (name_at names.now symbol) ∷ rest)) }
{
    let place = symbol as usize;
    if place < names.len() {
        put_name(names[place].as_slice(), pending, out);
    } else {
        put_name(b"", pending, out);
    }
}

/// Puts the name of a formula, which may be digits alone.
pub(crate) fn put_label<O: Sink>(name: &[u8], pending: &mut Pending, out: &mut O)
    ensures { Puts O.bytes O.faults pending.old pending.new out.old out.new
        (part (λ rest. words.label_word name.now ∷ rest)) }
{
    if !is_lower(name) && all_digits(name) {
        pending.put(name, out);
    } else {
        put_name(name, pending, out);
    }
}

/// Puts the variable of the binder that has so many binders around it.
pub(crate) fn put_variable<O: Sink>(number: u32, pending: &mut Pending, out: &mut O)
    ensures { Puts O.bytes O.faults pending.old pending.new out.old out.new
        (part (λ rest. words.variable_word number ∷ rest)) }
{
    pending.put(b"X", out);
    put_number(number, pending, out);
}
