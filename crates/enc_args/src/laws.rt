ghost use Rattle.enc_models.specs.KeepsModels.{KeepsModels};

use enc_marks::Scheme;

/// `args` keeps models: the lowered tables of any model of a sound normal problem without naked
/// places, however large, are a model of its translation, and the lifted tables of any model of the
/// translation are a model of the problem.
pub fn args_keeps_models()
    ensures { KeepsModels Scheme.Args }
{}

/// `erase` keeps models: the lowered tables of any model of a sound normal problem to which it
/// applies, however large, are a model of its translation, and the lifted tables of any model of the
/// translation are a model of the problem.
pub fn erase_keeps_models()
    ensures { KeepsModels Scheme.Erase }
{}
