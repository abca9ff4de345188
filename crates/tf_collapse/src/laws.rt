ghost use Rattle.tf_collapse.specs.Laws.{CollapseKeepsTruth};

/// Where a formula is true in a typed structure, its translation is true over the collapsed domain,
/// in the structure whose tables are pulled back. Each type is bare, guarded or tagged, and each
/// binder by itself where the scheme tells its variables apart.
pub fn collapse_keeps_truth()
    ensures { CollapseKeepsTruth }
{}
