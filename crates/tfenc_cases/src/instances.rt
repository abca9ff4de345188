//! Instances of types and formulas, and shifted terms.

ghost use Rattle.tf_core.specs.Sound.{IsSound};

use crate::call::Call;
use crate::given::{normal_of, problem_of};
use crate::out::Out;
use crate::put_core::put_term;
use crate::put_normal::put_nnf;
use crate::put_problem::put_arrow;
use crate::stop::Stop;
use enc_base::List;
use std::alloc::Global;
use tf_core::{
    Constructor, Nnf, Normal, Problem, Signature, Symbol, Term, Ty, instances_of, is_instance,
    same_instance,
};

/// Whether the call is one of this layer, which is then made.
pub fn answer(name: &[u8], call: &mut Call<'_>, out: &mut Out) -> Result<bool, Stop> {
    match name {
        b"instantiate" => instantiate(call, out)?,
        b"differ_instance" => differ_instance(call, out)?,
        b"substitute" => substitute(call, out)?,
        b"shift" => shift(call, out)?,
        _ => return Ok(false),
    }
    Ok(true)
}

/// The types that stand in the words, over the signature of the problem of the text.
pub fn types_of(alloc: Global, text: &[u8], words: &[u8]) -> Result<List<Ty>, Stop> {
    let declared = declared_for(alloc, text, words)?;
    let problem = problem_of(alloc, declared.as_slice())?;
    declared_types(alloc, problem.signature.symbols.as_slice())
}

// the text, and behind it for each word a symbol of that type
fn declared_for(alloc: Global, text: &[u8], words: &[u8]) -> Result<Vec<u8>, Stop> {
    let mut declared = text.to_vec(alloc)?;
    for word in words.split(|byte| *byte == b';') {
        declare(alloc, &mut declared, word)?;
    }
    Ok(declared)
}

fn declare(alloc: Global, declared: &mut Vec<u8>, word: &[u8]) -> Result<(), Stop> {
    declared.extend_from_slice(b"tff(0,type,'#")?;
    let number = declared.len();
    declared.extend_from_slice(format!(in alloc; "{number}': ")?.as_bytes())?;
    declared.extend_from_slice(word)?;
    declared.extend_from_slice(b").")?;
    Ok(())
}

// the types of the symbols that were declared for words
fn declared_types(alloc: Global, symbols: &[Symbol]) -> Result<List<Ty>, Stop> {
    let mut types = List::new(alloc);
    for symbol in symbols {
        match (symbol.name.as_slice(), &symbol.result) {
            ([b'#', ..], Some(ty)) => types.push(ty.copy(alloc)?)?,
            _ => {}
        }
    }
    Ok(types)
}

fn symbol_named<'a>(signature: &'a Signature, name: &[u8]) -> Result<&'a Symbol, Stop> {
    for symbol in signature.symbols.as_slice() {
        if symbol.name.as_slice() == name {
            return Ok(symbol);
        }
    }
    Err(Stop::Shape)
}

fn instantiate(call: &mut Call<'_>, out: &mut Out) -> Result<(), Stop> {
    let text = call.texts.problem.as_slice();
    let name = call.word();
    let problem = problem_of(call.alloc, text)?;
    let symbol = symbol_named(&problem.signature, name)?;
    let types = types_of(call.alloc, text, call.rest)?;
    let constructors = problem.signature.constructors.as_slice();
    put_instance(out, constructors, symbol, types.as_slice())
}

// the symbol with these types for its parameters
fn put_instance(
    out: &mut Out,
    constructors: &[Constructor],
    symbol: &Symbol,
    types: &[Ty],
) -> Result<(), Stop> {
    let arguments = instances_of(out.alloc, symbol.arguments.as_slice(), types)?;
    let gives = given_by(out.alloc, symbol, types)?;
    out.begin();
    out.put(b"symbol ");
    out.name(&symbol.name);
    out.put(b": ");
    put_arrow(out, constructors, arguments.as_slice(), &gives);
    out.end();
    let told = is_told(&symbol.result, types, &gives)
        && are_told(symbol.arguments.as_slice(), types, arguments.as_slice());
    out.told(b"instances ", &told);
    Ok(())
}

// what the symbol gives with these types for its parameters
fn given_by(alloc: Global, symbol: &Symbol, types: &[Ty]) -> Result<Option<Ty>, Stop> {
    match &symbol.result {
        Some(ty) => Ok(Some(ty.instantiate(alloc, types)?)),
        None => Ok(None),
    }
}

// whether each of the ones is told to be the instance of its other
fn are_told(arguments: &[Ty], types: &[Ty], made: &[Ty]) -> bool {
    for (ty, made) in arguments.iter().zip(made.iter()) {
        if !is_instance(ty, types, made) {
            return false;
        }
    }
    true
}

// whether the one is told to be the instance of the other, where there is one
fn is_told(ty: &Option<Ty>, types: &[Ty], made: &Option<Ty>) -> bool {
    match (ty, made) {
        (Some(ty), Some(made)) => is_instance(ty, types, made),
        (None, None) => true,
        _ => false,
    }
}

fn differ_instance(call: &mut Call<'_>, out: &mut Out) -> Result<(), Stop> {
    let text = call.texts.problem.as_slice();
    let name = call.word();
    let mut sides = call.rest.splitn(2, |byte| *byte == b'/');
    let first = types_of(call.alloc, text, sides.next().unwrap_or(&[]))?;
    let second = types_of(call.alloc, text, sides.next().unwrap_or(&[]))?;
    put_same(out, text, name, first.as_slice(), second.as_slice())
}

// whether the two lists of types give the same instance of the symbol's first type
fn put_same(
    out: &mut Out,
    text: &[u8],
    name: &[u8],
    first: &[Ty],
    second: &[Ty],
) -> Result<(), Stop> {
    let problem = problem_of(out.alloc, text)?;
    let symbol = symbol_named(&problem.signature, name)?;
    put_same_of(out, symbol, first, second)
}

fn put_same_of(out: &mut Out, symbol: &Symbol, first: &[Ty], second: &[Ty]) -> Result<(), Stop> {
    let ty = first_type(symbol)?;
    out.told(b"same ", &same_instance(ty, first, ty, second));
    Ok(())
}

// the type of the first argument, or of what the symbol gives
fn first_type<'a>(symbol: &'a Symbol) -> Result<&'a Ty, Stop> {
    match (symbol.arguments.as_slice(), &symbol.result) {
        ([ty, ..], _) => Ok(ty),
        ([], Some(ty)) => Ok(ty),
        _ => Err(Stop::Shape),
    }
}

// the formula with the number that the arguments begin with
fn body_at<'a>(normal: &'a Normal, number: u32) -> Result<&'a Nnf, Stop> {
    match normal.formulas.as_slice().get(number as usize) {
        Some(formula) => Ok(&formula.body),
        None => Err(Stop::Shape),
    }
}

fn substitute(call: &mut Call<'_>, out: &mut Out) -> Result<(), Stop> {
    let text = call.texts.problem.as_slice();
    let number = call.number()?;
    let types = types_of(call.alloc, text, call.rest)?;
    let problem = problem_of(call.alloc, text)?;
    put_substituted(out, &problem, number, types.as_slice())
}

// the formula with these types for its type variables
fn put_substituted(out: &mut Out, problem: &Problem, number: u32, types: &[Ty]) -> Result<(), Stop>
    requires sound { IsSound problem.now }
{
    let normal = normal_of(out.alloc, problem)?;
    let body = body_at(&normal, number)?;
    let made = body.substitute_types(out.alloc, types)?;
    out.begin();
    put_nnf(out, &normal.signature, &made);
    out.end();
    Ok(())
}

fn shift(call: &mut Call<'_>, out: &mut Out) -> Result<(), Stop> {
    let number = call.number()?;
    let by = call.number()?;
    let from = call.number()?;
    let problem = problem_of(call.alloc, call.texts.problem.as_slice())?;
    let normal = normal_of(call.alloc, &problem)?;
    let body = body_at(&normal, number)?;
    put_shifted(out, &normal.signature, body, by, from)
}

// the terms of the literals, shifted
#[cycle(put_shifted)]
fn put_shifted(
    out: &mut Out,
    signature: &Signature,
    formula: &Nnf,
    by: u32,
    from: u32,
) -> Result<(), Stop> {
    match formula {
        Nnf::True => Ok(()),
        Nnf::False => Ok(()),
        Nnf::Atom(_, _, _, terms) => {
            for term in terms.as_slice() {
                put_shifted_term(out, signature, term, by, from)?;
            }
            Ok(())
        }
        Nnf::Equation(_, _, left, right) => {
            put_shifted_term(out, signature, left, by, from)?;
            put_shifted_term(out, signature, right, by, from)
        }
        Nnf::And(parts) => put_all_shifted(out, signature, parts.as_slice(), by, from),
        Nnf::Or(parts) => put_all_shifted(out, signature, parts.as_slice(), by, from),
        Nnf::ForAll(_, body) => put_shifted(out, signature, body.get(), by, from),
        Nnf::Exists(_, body) => put_shifted(out, signature, body.get(), by, from),
    }
}

#[cycle(put_shifted)]
fn put_all_shifted(
    out: &mut Out,
    signature: &Signature,
    parts: &[Nnf],
    by: u32,
    from: u32,
) -> Result<(), Stop> {
    for part in parts {
        put_shifted(out, signature, part, by, from)?;
    }
    Ok(())
}

fn put_shifted_term(
    out: &mut Out,
    signature: &Signature,
    term: &Term,
    by: u32,
    from: u32,
) -> Result<(), Stop> {
    if !crate::bounds::is_below(term, by, from) {
        return Err(Stop::Shape);
    }
    let made = term.shift(out.alloc, by, from)?;
    out.begin();
    put_term(out, signature, &made);
    out.end();
    Ok(())
}
