ghost use Rattle.tf_nnf.specs.Laws.{PositiveFormKeepsTruth, NegativeFormTurnsTruth};
ghost use Rattle.tf_nnf.specs.Laws.{ModelHasOneExtension, ExtensionIsModel, ReductIsModel};

/// The normal form of a formula is true exactly where the formula is true.
pub fn positive_form_keeps_truth()
    ensures { PositiveFormKeepsTruth }
{}

/// The normal form of a formula's negation is true exactly where the formula is false.
pub fn negative_form_turns_truth()
    ensures { NegativeFormTurnsTruth }
{}

/// A model of a problem has one extension to the normal problem.
pub fn model_has_one_extension()
    ensures { ModelHasOneExtension }
{}

/// A model of a problem, extended by the first tuple of members at which the conjecture's body is
/// false, is a model of the normal problem.
pub fn extension_is_model()
    ensures { ExtensionIsModel }
{}

/// A model of the normal problem, without the tables of the fresh constructors, is a model of the
/// problem.
pub fn reduct_is_model()
    ensures { ReductIsModel }
{}
