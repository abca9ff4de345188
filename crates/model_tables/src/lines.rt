//! The lines of a table, put among the bytes that wait for a sink.

ghost use Rattle.std.specs.Prelude.{◌≡◌, ◌++◌, [], length, codes};
ghost use Rattle.enc_base.specs.Pending.{Puts};
ghost use Rattle.model_tables.specs.Grammar as grammar;
ghost use Rattle.model_tables.specs.Untyped.{symbol_kind};
ghost use Rattle.model_tables.specs.Written as written;
ghost use Rattle.model_tables.specs.Written.{laid, form_line, size_line};
ghost use Rattle.model_tables.specs.Written.{item_line, item_lines};
ghost use Rattle.model_tables.specs.Written.{constructor_headings, symbol_headings, fof_headings};
ghost use Rattle.model_tables.specs.WrittenLaws.{AreNumbers};

use crate::form::{Form, Kind};
use crate::parts::size_word;
use enc_base::{List, Name, Pending, Sink};
use fof_models::FofSymbol;
use fof_text::{put_name, put_number};
use tf_core::{Constructor, Symbol};

/// The line that a table begins with.
fn form_text(form: Form) -> &'static [u8]
    ensures { result.now ≡ laid (form_line form []) }
{
    match form {
        Form::Typed => b"typed 1.\n",
        Form::Untyped => b"untyped 1.\n",
    }
}

/// The first word of an item.
fn kind_text(kind: Kind) -> &'static [u8]
    ensures { result.now ≡ written.kind_word kind }
{
    match kind {
        Kind::Constructor => b"type",
        Kind::Symbol => b"symbol",
        Kind::Function => b"function",
        Kind::Predicate => b"predicate",
    }
}

/// Puts the first line of a table, and that of its sizes.
pub fn put_opening<O: Sink>(form: Form, sizes: &[u32], pending: &mut Pending, out: &mut O)
    ensures puts { Puts O.bytes O.faults pending.old pending.new out.old out.new
        (laid (form_line form (size_line form sizes.now []))) }
    ensures numbers { AreNumbers sizes.now }
{
    pending.put(form_text(form), out);
    pending.put(size_word(form), out);
    put_numbers(sizes, pending, out);
    pending.put(b".\n", out);
}

/// Puts numbers, each behind a space.
fn put_numbers<O: Sink>(numbers: &[u32], pending: &mut Pending, out: &mut O)
    ensures { Puts O.bytes O.faults pending.old pending.new out.old out.new
        (laid (written.numbers numbers.now [])) }
{
    for number in numbers {
        pending.put(b" ", out);
        put_number(*number, pending, out);
    }
}

/// Puts what stands in an item behind its name.
fn put_entries<O: Sink>(entries: &[u32], pending: &mut Pending, out: &mut O)
    ensures { Puts O.bytes O.faults pending.old pending.new out.old out.new
        ((codes " =" ++ laid (written.numbers entries.now [])) ++ codes ".\n") }
{
    pending.put(b" =", out);
    put_numbers(entries, pending, out);
    pending.put(b".\n", out);
}

/// Puts the name of the constructor at a place: `$i` for the first.
fn put_constructor_name<O: Sink>(index: usize, name: &[u8], pending: &mut Pending, out: &mut O)
    ensures { Puts O.bytes O.faults pending.old pending.new out.old out.new
        (written.constructor_word index name.now).spelling }
{
    if index == 0 {
        pending.put(b"$i", out);
    } else {
        put_name(name, pending, out);
    }
}

/// Puts the item of the constructor at a place.
fn put_constructor<O: Sink>(
    index: usize,
    name: &[u8],
    entries: &[u32],
    pending: &mut Pending,
    out: &mut O,
)
    ensures { Puts O.bytes O.faults pending.old pending.new out.old out.new
        (laid (item_line (written.constructor_heading index name.now) entries.now [])) }
{
    pending.put(b"type ", out);
    put_constructor_name(index, name, pending, out);
    put_entries(entries, pending, out);
}

/// Puts the item of a symbol.
fn put_symbol<O: Sink>(kind: Kind, name: &[u8], entries: &[u32], pending: &mut Pending, out: &mut O)
    ensures { Puts O.bytes O.faults pending.old pending.new out.old out.new
        (laid (item_line (written.heading kind name.now) entries.now [])) }
{
    pending.put(kind_text(kind), out);
    pending.put(b" ", out);
    put_name(name, pending, out);
    put_entries(entries, pending, out);
}

/// Puts the items of constructors.
pub fn put_constructors<O: Sink>(
    constructors: &[Constructor],
    tables: &[List<u32>],
    pending: &mut Pending,
    out: &mut O,
)
    requires { length tables.now ≡ length constructors.now }
    ensures { Puts O.bytes O.faults pending.old pending.new out.old out.new
        (laid (item_lines (constructor_headings 0 constructors.now) tables.now [])) }
{
    for i in 0..constructors.len() {
        let name = constructors[i].name.as_slice();
        put_constructor(i, name, tables[i].as_slice(), pending, out);
    }
}

/// Puts the items of the symbols of a signature.
pub fn put_symbols<O: Sink>(
    symbols: &[Symbol],
    tables: &[List<u32>],
    pending: &mut Pending,
    out: &mut O,
)
    requires { length tables.now ≡ length symbols.now }
    ensures { Puts O.bytes O.faults pending.old pending.new out.old out.new
        (laid (item_lines (symbol_headings symbols.now) tables.now [])) }
{
    for i in 0..symbols.len() {
        let name = symbols[i].name.as_slice();
        put_symbol(Kind::Symbol, name, tables[i].as_slice(), pending, out);
    }
}

/// The kind of a symbol's item in an untyped table.
pub fn kind_of(symbol: &FofSymbol) -> Kind
    ensures { result ≡ symbol_kind symbol.now }
{
    if symbol.predicate {
        Kind::Predicate
    } else {
        Kind::Function
    }
}

/// Puts the items of the symbols of an untyped problem, by their names.
pub fn put_fof_symbols<O: Sink>(
    signature: &[FofSymbol],
    names: &[Name],
    tables: &[List<u32>],
    pending: &mut Pending,
    out: &mut O,
)
    requires named { length names.now ≡ length signature.now }
    requires tabled { length tables.now ≡ length signature.now }
    ensures { Puts O.bytes O.faults pending.old pending.new out.old out.new
        (laid (item_lines (fof_headings signature.now names.now) tables.now [])) }
{
    for i in 0..signature.len() {
        let kind = kind_of(&signature[i]);
        put_symbol(
            kind,
            names[i].as_slice(),
            tables[i].as_slice(),
            pending,
            out,
        );
    }
}
