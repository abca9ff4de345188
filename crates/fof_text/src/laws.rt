//! Laws over what a text states.

ghost use Rattle.fof_text.specs.Laws.{ChosenNamesAreNames, CommentsChangeNothing, NumbersAreLeast};
ghost use Rattle.fof_text.specs.Laws.{StatedProblemsHaveModelsTogether, TextStatesItsProblem};

/// The text of a sound problem states the problem, where each symbol has a name of its own.
pub fn text_states_its_problem()
    ensures { TextStatesItsProblem }
{}

/// A comment line in front of a text changes nothing of what the text states.
pub fn comments_change_nothing()
    ensures { CommentsChangeNothing }
{}

/// Where one problem that a text states has a finite model, every problem that it states has one.
pub fn stated_problems_have_models_together()
    ensures { StatedProblemsHaveModelsTogether }
{}

/// A name that is chosen with a number is a free one, and it is none with a smaller number.
pub fn numbers_are_least()
    ensures { NumbersAreLeast }
{}

/// Chosen names are one for each symbol, differ and can be written, where the wanted names can be.
pub fn chosen_names_are_names()
    ensures { ChosenNamesAreNames }
{}
