ghost use Rattle.std.specs.Prelude.{◌≡◌};
ghost use Rattle.tf_core.specs.declared.signature.Symbol.{Symbol};
ghost use Rattle.enc_marks.specs.Choices as specs;
ghost use Rattle.enc_marks.specs.Choices.{TagsTypesAlike, kept_types};

use tf_core::Ty;
use tf_naked::{Kind, Position};

/// The type arguments that are written.
#[derive(Debug, Clone, Copy)]
pub enum TypeArguments {
    All,
    /// Those for parameters without a cover.
    Uncovered,
    Nothing,
}

/// What has a guard or tag of its own.
#[derive(Debug, Clone, Copy)]
pub enum Marking {
    /// All types together: the type is the first argument.
    ByType,
    /// Each sort.
    BySort,
}

/// What binds a term to a type.
#[derive(Debug, Clone, Copy)]
pub enum Binding {
    /// The guard: `is(t,x)`.
    ByGuard,
    /// An equation with its tag: `as(t,x) = x`.
    ByTag,
}

/// The domain of the untyped model that a typed one gives.
#[derive(Debug, Clone, Copy)]
pub enum Domain {
    /// The members, and behind them a number for each element of each member.
    Merged,
    /// As many numbers as the greatest member has elements, or more.
    Collapsed,
}

/// The numbers of an untyped model that are the elements of a member of the typed one that it
/// gives.
#[derive(Debug, Clone, Copy)]
pub enum Elements {
    /// Those of which the guard holds.
    Guarded,
    /// Those that the tag gives. Values are read through the tag.
    Image,
    /// Those that the tag leaves as they are.
    Fixed,
    All,
}

/// What a scheme chooses. Each call gives what the record of choices has.
pub trait Choices {
    /// The record of choices.
    ghost choices: { Self → specs.Choices };

    fn keeps(&self) -> TypeArguments
        ensures { (symbol : Symbol) → (choices self.now).keeps symbol ≡ kept_types result symbol };

    fn tagged(&self, position: Position, kind: Kind, ty: &Ty) -> bool
        ensures { result ≡ (choices self.now).tagged position kind ty.now };

    fn universal(&self, undercover: bool, naked: bool, ty: &Ty) -> bool
        ensures { result ≡ (choices self.now).universal undercover naked ty.now };

    fn existential(&self, ty: &Ty) -> bool
        ensures { result ≡ (choices self.now).existential ty.now };

    fn typing(&self, ty: &Ty) -> bool
        ensures { result ≡ (choices self.now).typing ty.now };

    fn premise(&self, cover: bool, ty: &Ty) -> bool
        ensures { result ≡ (choices self.now).premise cover ty.now };

    fn last(&self, ty: &Ty) -> bool
        ensures { result ≡ (choices self.now).last ty.now };

    fn marking(&self) -> Marking
        ensures { result ≡ (choices self.now).marking };

    fn binding(&self) -> Binding
        ensures { result ≡ (choices self.now).binding };

    fn domain(&self) -> Domain
        ensures { result ≡ (choices self.now).domain };

    fn elements(&self) -> Elements
        ensures { result ≡ (choices self.now).elements };

    /// Where all types share a mark, whether a term has its tag doesn't depend on its type.
    ghost alike: { (it : Self) → TagsTypesAlike (choices it) };
}
