ghost use Rattle.std.specs.Prelude.{◌≡◌, IfOk};
ghost use Rattle.enc_marks.specs.Axioms as specs;
ghost use Rattle.enc_marks.specs.Calls.Closures.{closure_of};

use enc_base::{Boxed, Name, NoMemory};
use fof_models::{Fof, FofFormula, FofRole};
use std::alloc::Global;

/// A formula of a translation whose outermost universal quantifiers aren't written yet: so many are
/// still to stand round the body.
///
/// A typing axiom has a quantifier for each parameter and each argument of its symbol, and no limit
/// bounds these. What looks into a body goes no deeper than the text nests.
#[derive(Debug, Drop)]
pub struct OpenFormula {
    pub name: Name,
    pub role: FofRole,
    pub binders: u32,
    pub body: Fof,
}

impl OpenFormula {
    /// The formula with all its quantifiers.
    pub fn closure(self, alloc: Global) -> Result<FofFormula, NoMemory>
        ensures { IfOk result (λ made. made ≡ closure_of self) }
    {
        let OpenFormula {
            name,
            role,
            binders,
            body,
        } = self;
        let body = closed(alloc, binders, body)?;
        Ok(FofFormula { name, role, body })
    }
}

/// A formula under so many universal quantifiers.
fn closed(alloc: Global, count: u32, body: Fof) -> Result<Fof, NoMemory>
    ensures { IfOk result (λ made. made ≡ specs.closed count body) }
{
    let mut made = body;
    for _binder in 0..count {
        made = Fof::ForAll(Boxed::new(alloc, made)?);
    }
    Ok(made)
}
