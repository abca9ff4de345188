ghost use Rattle.std.specs.Prelude.{◌≡◌, ◌<◌, ◌≤◌, [], length, get_or};
ghost use Rattle.enc_base.specs.Tables.{sum_below};
ghost use Rattle.enc_base.specs.Counts.{in_64_bits};
ghost use Rattle.tf_models.specs.Reading.{tables};
ghost use Rattle.tf_models.specs.Fit.{ConstructorsFit, block_count, length_at};
ghost use Rattle.tf_models.specs.Evaluation.{IsBlock};
ghost use Rattle.tf_core.specs.Typing.{IsSymbol};

use crate::members::Members;
use crate::occurring::are_closed;
use crate::structure::TypedStructure;
use tf_core::{Signature, Symbol};

impl TypedStructure {
    /// The table of a symbol.
    pub fn symbol_table(&self, f: u32) -> &[u32]
        requires { f < length self.now.symbols }
        ensures { result.now ≡ get_or self.now.symbols f [] }
    {
        self.symbols.as_slice()[f as usize].as_slice()
    }

    /// How many entries a block of a symbol's table has, or 2^64 - 1 where it has more.
    pub fn block_length(&self, signature: &Signature, symbol: &Symbol, number: u64) -> u64
        requires block { IsBlock signature.now self.now symbol.now number }
        ensures exact { result ≡ in_64_bits (length_at (tables self.now) symbol.now number) }
    {
        let count = self.sizes.as_slice().len() as u32;
        let members = Members::Numbered(number, count, symbol.parameters);
        let mut length = 1u64;
        for ty in symbol.arguments.as_slice() {
            length = length.saturating_mul(self.size_of(signature, ty, members) as u64);
        }
        length
    }

    /// Where a block begins in a symbol's table: behind the blocks of all earlier tuples. Where no
    /// argument type has a variable they are equally long, and aren't gone through.
    pub(crate) fn block_start(
        &self,
        signature: &Signature,
        symbol: &Symbol,
        number: usize,
        table: &[u32],
    ) -> usize
        requires block { IsBlock signature.now self.now symbol.now number }
        requires entries { sum_below number (length_at (tables self.now) symbol.now) ≤ length table.now }
        ensures exact { result ≡ sum_below number (length_at (tables self.now) symbol.now) }
    {
        if number == 0 {
            return 0;
        }
        if are_closed(symbol.arguments.as_slice()) {
            return number * self.block_length(signature, symbol, number as u64) as usize;
        }
        let mut start = 0usize;
        for earlier in 0..number {
            start += self.block_length(signature, symbol, earlier as u64) as usize;
        }
        start
    }
}
