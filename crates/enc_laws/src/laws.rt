ghost use Rattle.enc_laws.specs.Laws.{TruthGoesForward, TruthGoesBack, ProblemsGoForward, ProblemsGoBack, OnlyPresentSymbolsCount, MergedIsModel, LiftedIsModel, TablesAreLifted, ModelsAreEncoded, CollapsedIsModel};
ghost use Rattle.enc_laws.specs.CollapsedLaws.{ModelsAreCollapsed, ModelsAreCollapsedBySort, SchemesCollapse, ModelsAreEncodedCollapsed};
ghost use Rattle.enc_laws.specs.LiftedBySort.{SortsAreLifted, ModelsAreLifted};

/// Where a formula is true in a typed structure, its translation is in the untyped one.
pub fn truth_goes_forward()
    ensures { TruthGoesForward }
{}

/// Where a translation is true in an untyped structure, its formula is in the typed one.
pub fn truth_goes_back()
    ensures { TruthGoesBack }
{}

/// A model of a problem is, where the structures correspond, a model of its translation.
pub fn problems_go_forward()
    ensures { ProblemsGoForward }
{}

/// A model of a translation is, where the structures correspond, a model of the problem.
pub fn problems_go_back()
    ensures { ProblemsGoBack }
{}

/// Formulas speak of the symbols that occur in them, and of no number.
pub fn only_present_symbols_count()
    ensures { OnlyPresentSymbolsCount }
{}

/// The merged structure of a model is a model of the translation by `guards`, `tags` and both cover
/// schemes.
pub fn merged_is_model()
    ensures { MergedIsModel }
{}

/// Each model of a problem gives, over the symbols that occur, a model of the problem that
/// `guards`, `tags` or a cover scheme makes.
pub fn models_are_encoded()
    ensures { ModelsAreEncoded }
{}

/// The lifted structure of a model of a translation is a model of the problem: for `guards`,
/// `tags`, both cover schemes and `args`.
pub fn lifted_is_model()
    ensures { LiftedIsModel }
{}

/// Each finite model of a problem that is encoded by one of these schemes gives a model of the
/// normal problem. Where a symbol doesn't occur, its table is zeros, and a tag changes nothing.
pub fn tables_are_lifted()
    ensures { TablesAreLifted }
{}

/// A structure over the collapsed domain of a model of a problem is a model of its translation.
pub fn collapsed_is_model()
    ensures { CollapsedIsModel }
{}

/// The schemes whose marks are of sorts, the feather schemes among them, treat each type in a way
/// that the collapsed domain bears.
pub fn schemes_collapse()
    ensures { SchemesCollapse }
{}

/// The collapsed structure of a model of a problem without naked places is a model of its
/// translation by `args`.
pub fn models_are_collapsed()
    ensures { ModelsAreCollapsed }
{}

/// The collapsed structure of a model of a problem without type variables is a model of its
/// translation by choices that bear it.
pub fn models_are_collapsed_by_sort()
    ensures { ModelsAreCollapsedBySort }
{}

/// Each model of a problem gives, over the symbols that occur, a model of the problem that `args`,
/// `erase`, a light or a feather scheme makes, where it applies.
pub fn models_are_encoded_collapsed()
    ensures { ModelsAreEncodedCollapsed }
{}

/// The lifted structure whose members are the sorts, of an untyped model of a translation by a
/// scheme whose marks are of sorts, is a model of the problem.
pub fn sorts_are_lifted()
    ensures { SortsAreLifted }
{}

/// Each finite model of what a scheme makes of a problem to which it applies gives a model of the
/// problem, for all schemes.
pub fn models_are_lifted()
    ensures { ModelsAreLifted }
{}
