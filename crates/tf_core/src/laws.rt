ghost use Rattle.tf_core.specs.Laws.{UniversalIsTrueOfEach, ExistentialIsTrueOfSome, EntriesStandInBlocks, InstancesHaveValues, ShiftedTermsHaveValues, SubstitutionKeepsTruth, InstancesAreTyped, ShiftedTermsAreTyped, SubstitutionKeepsTyping, ValuesAreInRange, TruthDependsOnOccurring, TypingIsDecided};

/// A universal formula is true exactly where its body is true of each element of the type's member.
pub fn universal_is_true_of_each()
    ensures { UniversalIsTrueOfEach }
{}

/// An existential formula is true exactly where its body is true of some element.
pub fn existential_is_true_of_some()
    ensures { ExistentialIsTrueOfSome }
{}

/// An entry of a tuple's block stands behind the blocks of all earlier tuples.
pub fn entries_stand_in_blocks()
    ensures { EntriesStandInBlocks }
{}

/// The value of an instance of a type is the type's value at the values of the instances.
pub fn instances_have_values()
    ensures { InstancesHaveValues }
{}

/// The value of a shifted term is the term's, with the elements of the new variables put in.
pub fn shifted_terms_have_values()
    ensures { ShiftedTermsHaveValues }
{}

/// A formula with its types replaced is as true as the formula is at the values of the types.
pub fn substitution_keeps_truth()
    ensures { SubstitutionKeepsTruth }
{}

/// A type instantiated by types that are formed is formed.
pub fn instances_are_typed()
    ensures { InstancesAreTyped }
{}

/// A shifted term has the term's type, with the types of the new variables put in its context.
pub fn shifted_terms_are_typed()
    ensures { ShiftedTermsAreTyped }
{}

/// Terms and formulas with their types replaced are well typed where they were before.
pub fn substitution_keeps_typing()
    ensures { SubstitutionKeepsTyping }
{}

/// The value of a type is a member, and the value of a term an element of its type's member.
pub fn values_are_in_range()
    ensures { ValuesAreInRange }
{}

/// The truth of a formula depends only on the members of the type variables that occur in it.
pub fn truth_depends_on_occurring()
    ensures { TruthDependsOnOccurring }
{}

/// The tests of typing say what the typing relations say.
pub fn typing_is_decided()
    ensures { TypingIsDecided }
{}
