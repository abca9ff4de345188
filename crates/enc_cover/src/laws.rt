ghost use Rattle.enc_models.specs.KeepsModels.{KeepsModels};

use enc_marks::Scheme;

/// The cover schemes keep models: the lowered tables of any model of a sound normal problem,
/// however large, are a model of its translation, and the lifted tables of any model of the
/// translation are a model of the problem.
pub fn covers_keep_models()
    ensures guards { KeepsModels Scheme.GuardsCover }
    ensures tags { KeepsModels Scheme.TagsCover }
{}
