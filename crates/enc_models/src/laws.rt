//! Which schemes keep models, as calls that do nothing.

ghost use Rattle.enc_models.specs.KeepsModels.{CollapsedSchemesLowerModels, MergedSchemesKeepModels, SchemesLiftModels};

/// `guards`, `tags` and both cover schemes keep models: the lowered tables of any model of a sound
/// normal problem are a model of its translation, and the lifted tables of any model of the
/// translation are a model of the problem.
pub fn merged_schemes_keep_models()
    ensures { MergedSchemesKeepModels }
{}

/// The lowered tables of any model of a sound normal problem are a model of its translation by
/// `args`, `erase`, a light or a feather scheme, where the scheme applies.
pub fn collapsed_schemes_lower_models()
    ensures { CollapsedSchemesLowerModels }
{}

/// The lifted tables of any model of a translation are a model of the problem, for all schemes: of
/// a sound normal problem to which the scheme applies.
pub fn schemes_lift_models()
    ensures { SchemesLiftModels }
{}
