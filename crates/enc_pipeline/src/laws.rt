//! What the definitions of carried models promise one another, as calls that do nothing.

ghost use Rattle.enc_pipeline.specs.Laws.{CheckingHasOneAnswer, LoweringHasOneAnswer, LiftingHasOneAnswer};
ghost use Rattle.enc_pipeline.specs.Laws.{LoweredTablesAreOfModels, LiftedTablesAreOfModels};

/// A text is a typed table of a model of a problem, or there is one reason why it is none.
pub fn checking_has_one_answer()
    ensures { CheckingHasOneAnswer }
{}

/// For a typed table one output is written where it is lowered, or there is one reason why none is.
pub fn lowering_has_one_answer()
    ensures { LoweringHasOneAnswer }
{}

/// For an untyped table one output is written where it is lifted, or there is one reason why none
/// is.
pub fn lifting_has_one_answer()
    ensures { LiftingHasOneAnswer }
{}

/// What is written for a table that is lowered is an untyped table of a model of the translation,
/// so it can be lifted.
pub fn lowered_tables_are_of_models()
    ensures { LoweredTablesAreOfModels }
{}

/// What is written for a table that is lifted is a typed table of a model of the problem, so it can
/// be checked and lowered.
pub fn lifted_tables_are_of_models()
    ensures { LiftedTablesAreOfModels }
{}
