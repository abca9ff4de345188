//! Structures, a line for each table.

use crate::out::Out;
use enc_base::{List, Name};
use fof_models::{FofSymbol, Structure};
use fof_text::Names;
use tf_core::Signature;
use tf_models::TypedStructure;

// a line: a word, a name and a table
fn put_table(out: &mut Out, word: &[u8], name: &Name, table: &List<u32>) {
    out.begin();
    out.put(word);
    out.name(name);
    out.put(b": ");
    out.numbers(table.as_slice());
    out.end()
}

/// The tables of a structure of the signature.
pub fn put_typed(out: &mut Out, signature: &Signature, structure: &TypedStructure) {
    out.begin();
    out.put(b"sizes ");
    out.numbers(structure.sizes.as_slice());
    out.end();
    let constructors = signature.constructors.as_slice().iter();
    for (constructor, table) in constructors.zip(structure.constructors.as_slice().iter()) {
        put_table(out, b"type ", &constructor.name, table);
    }
    let symbols = signature.symbols.as_slice().iter();
    for (symbol, table) in symbols.zip(structure.symbols.as_slice().iter()) {
        put_table(out, b"symbol ", &symbol.name, table);
    }
}

// the word for a symbol's kind
pub fn kind_word(symbol: &FofSymbol) -> &'static [u8] {
    if symbol.predicate {
        b"predicate "
    } else {
        b"function "
    }
}

/// The tables of a structure of the signature, under the names.
pub fn put_untyped(out: &mut Out, signature: &[FofSymbol], names: &Names, structure: &Structure) {
    out.begin();
    out.put(b"size ");
    out.show(&structure.size);
    out.end();
    let symbols = signature.iter().zip(names.as_slice().iter());
    for ((symbol, name), table) in symbols.zip(structure.tables.as_slice().iter()) {
        put_table(out, kind_word(symbol), name, table);
    }
}
