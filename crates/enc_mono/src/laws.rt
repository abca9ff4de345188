ghost use Rattle.enc_mono.specs.Laws.{RoundsOnlyAdd, RestrictionKeepsModels};
ghost use Rattle.enc_mono.specs.Laws.{RestrictedTablesKeepModels, InstancesAreTyped};
ghost use Rattle.enc_mono.specs.Rows.{ListInstances};

/// One round more knows each symbol instance that was known, and admits each substitution that was.
pub fn rounds_only_add_instances()
    ensures { RoundsOnlyAdd }
{}

/// The restriction of any model of a sound problem is a model of its instances.
pub fn restriction_keeps_models()
    ensures { RestrictionKeepsModels }
{}

/// The restricted tables of any model of a sound problem are a model of its instances.
pub fn restricted_tables_keep_models()
    ensures { RestrictedTablesKeepModels }
{}

/// The instances of a sound problem are well typed.
pub fn instances_are_typed()
    ensures { InstancesAreTyped }
{}

/// A worked row: what a problem of lists has as its instances.
pub fn lists_have_instances()
    ensures { ListInstances }
{}
