ghost use Rattle.std.specs.Prelude.{◌≡◌, ◌↔◌, IsTrue, IfOk};

use enc_base::NoMemory;
use std::alloc::Global;

/// What a symbol of the untyped problem stands for.
///
/// `Symbol(f)` and `Constructor(c)` are those of the normal problem's signature, by index. `Guard`
/// and `Tag` are those of all types together, `SortGuard(s)` and `SortTag(s)` those of the s-th
/// sort.
#[derive(Debug, Drop)]
pub enum Mark {
    Symbol(u32),
    Constructor(u32),
    Guard,
    Tag,
    SortGuard(u32),
    SortTag(u32),
}

impl Mark {
    /// An equal mark. It takes no memory, and has an error because every type's copy has one.
    pub fn copy(&self, _alloc: Global) -> Result<Mark, NoMemory>
        ensures { IfOk result (λ copied. copied ≡ self.now) }
    {
        match self {
            Mark::Symbol(f) => Ok(Mark::Symbol(*f)),
            Mark::Constructor(c) => Ok(Mark::Constructor(*c)),
            Mark::Guard => Ok(Mark::Guard),
            Mark::Tag => Ok(Mark::Tag),
            Mark::SortGuard(s) => Ok(Mark::SortGuard(*s)),
            Mark::SortTag(s) => Ok(Mark::SortTag(*s)),
        }
    }

    /// Whether the two are equal.
    pub fn same(&self, other: &Mark) -> bool
        ensures { IsTrue result ↔ (self.now ≡ other.now) }
    {
        match (self, other) {
            (Mark::Symbol(f), Mark::Symbol(g)) => *f == *g,
            (Mark::Constructor(c), Mark::Constructor(d)) => *c == *d,
            (Mark::Guard, Mark::Guard) => true,
            (Mark::Tag, Mark::Tag) => true,
            (Mark::SortGuard(s), Mark::SortGuard(t)) => *s == *t,
            (Mark::SortTag(s), Mark::SortTag(t)) => *s == *t,
            _ => false,
        }
    }
}
