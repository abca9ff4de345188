//! The names of symbols.

ghost use Rattle.std.specs.Prelude.{◌≡◌, ◌<◌, ◌^◌, IfOk, length};
ghost use Rattle.fof_text.specs.Names.{AllDiffer, chosen_names, name_at};

use crate::choose::{choose_name, take_wanted};
use enc_base::{List, Name, NoMemory};
use fof_models::FofSymbol;
use std::alloc::Global;
use std::marker::Model;

/// How many symbols there are: fewer than memory has room for.
fn count_of(signature: &[FofSymbol]) -> usize
    ensures exact { result ≡ length signature.now }
    ensures few { result < 2 ^ 62 }
{
    signature.len()
}

/// One name for each symbol of a signature.
#[derive(Debug, Drop)]
pub struct Names {
    names: List<Name>,
}

impl Model for Names {
    ghost use Rattle.std.specs.Prelude.{List, ℕ};

    ghost Value = { List (List ℕ) };

    ghost view = { λ names. names.names };
}

impl Names {
    /// The names of the symbols of a signature, chosen one after another.
    ///
    /// A symbol gets the name that it wants, where no earlier symbol has it. Otherwise it gets that
    /// name followed by `_` and the least number, from 0, whose name no earlier symbol has and no
    /// symbol of the signature wants.
    pub fn choose(alloc: Global, signature: &[FofSymbol]) -> Result<Names, NoMemory>
        ensures exact { IfOk result (λ names. names ≡ chosen_names signature.now) }
        ensures one_each { IfOk result (λ names. length names ≡ length signature.now) }
        ensures differ { IfOk result (λ names. AllDiffer names) }
    {
        let count = count_of(signature);
        let mut uses = take_wanted(alloc, signature)?;
        let mut names = List::new(alloc);
        for i in 0..count {
            let name = choose_name(alloc, &mut uses, signature[i].wanted.as_slice(), i + count)?;
            names.push(name)?;
        }
        Ok(Names { names })
    }

    /// The names, in the order of the signature.
    pub fn as_slice(&self) -> &[Name]
        ensures { result.now ≡ self.now }
    {
        self.names.as_slice()
    }

    /// The name of the symbol with this index, counted from 0.
    pub fn name_at(&self, symbol: u32) -> &Name
        requires { symbol < length self.now }
        ensures { result.now ≡ name_at self.now symbol }
    {
        &self.as_slice()[symbol as usize]
    }
}
