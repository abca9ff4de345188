//! The truth laws of the translations: models of a problem and of its translation.
#![tactic(auto)]

mod laws;

pub use laws::{
    collapsed_is_model, lifted_is_model, merged_is_model, models_are_collapsed,
    models_are_collapsed_by_sort, models_are_encoded, models_are_encoded_collapsed,
    models_are_lifted, only_present_symbols_count, problems_go_back, problems_go_forward,
    schemes_collapse, sorts_are_lifted, tables_are_lifted, truth_goes_back, truth_goes_forward,
};
