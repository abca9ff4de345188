ghost use Rattle.std.specs.Prelude.{◌≡◌, map, IfOk, IsTrue};
ghost use Rattle.fof_models.specs.declared.problem.FofFormula.{FofFormula};
ghost use Rattle.tf_core.specs.Sound.{IsSoundNormal, is_monomorphic};
ghost use Rattle.enc_marks.specs.Calls.Closures.{closure_of, closures};
ghost use Rattle.enc_marks.specs.Encoded.{encoded};
ghost use Rattle.enc_marks.specs.Calls.Flags.{number_of, renumbered_by};
ghost use Rattle.enc_marks.specs.Calls.Slots.{AreMarks, marking_of};
ghost use Rattle.enc_marks.specs.declared.choices.Marking.TheVariants.{BySort};

use crate::choices::{Choices, Marking};
use crate::encoded::Encoded;
use crate::flags::Occurring;
use crate::open_formula::OpenFormula;
use crate::renumber::Numbering;
use crate::tables::kept_of_symbols;
use crate::type_marks::Marks;
use crate::type_writer::TypeWriter;
use crate::writer::Writer;
use enc_base::{List, NoMemory};
use fof_models::{FofFormula, FofProblem};
use std::alloc::Global;
use tf_core::Normal;
use tf_naked::{SortTable, covers_of_symbols, sorts};

impl Numbering {
    // the formulas under the new numbers, with all their quantifiers
    fn closures(
        &self,
        alloc: Global,
        formulas: List<OpenFormula>,
    ) -> Result<List<FofFormula>, NoMemory>
        ensures { IfOk result (λ made. made ≡ map (renumbered_by (number_of self.now)) (closures
            formulas)) }
    {
        let mut made = List::new(alloc);
        for formula in formulas.into_vec() {
            made.push(self.closure(alloc, formula)?)?;
        }
        Ok(made)
    }

    fn closure(&self, alloc: Global, formula: OpenFormula) -> Result<FofFormula, NoMemory>
        ensures { IfOk result (λ made. made ≡ renumbered_by (number_of self.now) (closure_of
            formula)) }
    {
        let mut formula = formula;
        formula.body = self.formula(alloc, &formula.body)?;
        formula.closure(alloc)
    }
}

// the translation by choices with these guards or tags
fn encode_with<C: Choices>(
    alloc: Global,
    choices: &C,
    normal: &Normal,
    marks: Marks,
) -> Result<Encoded, NoMemory>
    requires sound { IsSoundNormal normal.now }
    requires monomorphic { (C.choices choices.now).marking ≡ BySort →
        IsTrue (is_monomorphic normal.now) }
    requires marking { (C.choices choices.now).marking ≡ marking_of marks }
    requires marks { AreMarks normal.now marks }
    ensures exact { IfOk result (λ made. made ≡ encoded (C.choices choices.now) normal.now) }
{
    let types = TypeWriter { normal, marks };
    let covers = covers_of_symbols(alloc, &normal.signature)?;
    let symbols = normal.signature.symbols.as_slice();
    let kept = kept_of_symbols(alloc, choices.keeps(), symbols)?;
    let slots = types.slots_of_symbols(alloc, choices, covers.as_slice())?;
    let writer = Writer {
        choices,
        types,
        covers: covers.as_slice(),
        kept: kept.as_slice(),
        slots: slots.as_slice(),
    };
    let stated = writer.translation(alloc)?;
    let occurring = Occurring::of_formulas(alloc, stated.as_slice())?;
    let numbering = Numbering::new(alloc, &occurring)?;
    let formulas = numbering.closures(alloc, stated)?;
    let marked = writer.marked(alloc, &occurring)?;
    Ok(Encoded {
        problem: FofProblem {
            signature: marked.symbols,
            formulas,
        },
        marks: marked.marks,
    })
}

/// The translation by the choices of a scheme. Where each sort has a guard or tag of its own, the
/// problem has no type variables.
///
/// The time and the memory are proportional to the problem and its translation.
pub fn encode<C: Choices>(alloc: Global, choices: &C, normal: &Normal) -> Result<Encoded, NoMemory>
    requires sound { IsSoundNormal normal.now }
    requires monomorphic { (C.choices choices.now).marking ≡ BySort →
        IsTrue (is_monomorphic normal.now) }
    ensures exact { IfOk result (λ made. made ≡ encoded (C.choices choices.now) normal.now) }
{
    match choices.marking() {
        Marking::ByType => encode_with(alloc, choices, normal, Marks::Shared),
        Marking::BySort => {
            let table = SortTable::new(alloc, sorts(alloc, normal)?)?;
            encode_with(alloc, choices, normal, Marks::Sorts(&table))
        }
    }
}
