ghost use Rattle.enc_models.specs.KeepsModels.{KeepsModels};

use enc_marks::Scheme;

/// `guards_feather` keeps models: the lowered tables of any model of a sound normal problem without type
/// variables, however large, are a model of its translation, and the lifted tables of any model of
/// the translation are a model of the problem.
pub fn guards_feather_keeps_models()
    ensures { KeepsModels Scheme.GuardsFeather }
{}

/// `tags_feather` keeps models: the lowered tables of any model of a sound normal problem without type
/// variables, however large, are a model of its translation, and the lifted tables of any model of
/// the translation are a model of the problem.
pub fn tags_feather_keeps_models()
    ensures { KeepsModels Scheme.TagsFeather }
{}
