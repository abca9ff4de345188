ghost use Rattle.std.specs.Prelude.{◌≡◌, ◌↔◌, IsTrue, IfOk};

use enc_base::NoMemory;
use std::alloc::Global;

/// A way to write types into untyped formulas.
#[derive(Debug, Drop)]
pub enum Scheme {
    Guards,
    Tags,
    GuardsCover,
    TagsCover,
    Args,
    Erase,
    GuardsLight,
    TagsLight,
    GuardsFeather,
    TagsFeather,
}

impl Scheme {
    /// An equal scheme. It takes no memory, and has an error because every type's copy has one.
    pub fn copy(&self, _alloc: Global) -> Result<Scheme, NoMemory>
        ensures { IfOk result (λ copied. copied ≡ self.now) }
    {
        match self {
            Scheme::Guards => Ok(Scheme::Guards),
            Scheme::Tags => Ok(Scheme::Tags),
            Scheme::GuardsCover => Ok(Scheme::GuardsCover),
            Scheme::TagsCover => Ok(Scheme::TagsCover),
            Scheme::Args => Ok(Scheme::Args),
            Scheme::Erase => Ok(Scheme::Erase),
            Scheme::GuardsLight => Ok(Scheme::GuardsLight),
            Scheme::TagsLight => Ok(Scheme::TagsLight),
            Scheme::GuardsFeather => Ok(Scheme::GuardsFeather),
            Scheme::TagsFeather => Ok(Scheme::TagsFeather),
        }
    }

    /// Whether the two are equal.
    pub fn same(&self, other: &Scheme) -> bool
        ensures { IsTrue result ↔ (self.now ≡ other.now) }
    {
        match (self, other) {
            (Scheme::Guards, Scheme::Guards) => true,
            (Scheme::Tags, Scheme::Tags) => true,
            (Scheme::GuardsCover, Scheme::GuardsCover) => true,
            (Scheme::TagsCover, Scheme::TagsCover) => true,
            (Scheme::Args, Scheme::Args) => true,
            (Scheme::Erase, Scheme::Erase) => true,
            (Scheme::GuardsLight, Scheme::GuardsLight) => true,
            (Scheme::TagsLight, Scheme::TagsLight) => true,
            (Scheme::GuardsFeather, Scheme::GuardsFeather) => true,
            (Scheme::TagsFeather, Scheme::TagsFeather) => true,
            _ => false,
        }
    }
}
