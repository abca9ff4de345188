use crate::mark::Mark;
use enc_base::List;
use fof_models::FofSymbol;

/// Symbols of an untyped problem, and what each stands for.
#[derive(Debug, Drop)]
pub struct Marked {
    pub symbols: List<FofSymbol>,
    pub marks: List<Mark>,
}
