ghost use Rattle.structure_tables.specs.Laws.{TypedTablesAreFunctions, NormalModelsAreTabled, CountsAreLengths};

/// Functions that fit a signature are the reading of their tables, which are well formed.
pub fn typed_tables_are_functions()
    ensures { TypedTablesAreFunctions }
{}

/// The tables of a model of a normal problem are a model of it.
pub fn normal_models_are_tabled()
    ensures { NormalModelsAreTabled }
{}

/// What is counted of a structure is the sum of its sizes, or its size, and the lengths of all tables.
pub fn counts_are_lengths()
    ensures { CountsAreLengths }
{}
