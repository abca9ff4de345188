ghost use Rattle.std.specs.Prelude.{◌≡◌, get_or};
ghost use Rattle.enc_marks.specs.Calls.Slots.{no_slot, is_tagged};

use tf_naked::Kind;

/// What is found once of an argument place of a symbol: whether it is a cover, for each kind of term
/// whether it is written with its tag there, and the number of the guard or tag of its type.
#[derive(Clone, Copy)]
pub struct Slot {
    pub cover: bool,
    pub universal: bool,
    pub existential: bool,
    pub applied: bool,
    pub mark: u32,
}

impl Slot {
    /// Whether a term of this kind is written with its tag.
    pub fn is_tagged(&self, kind: Kind) -> bool
        ensures { result ≡ is_tagged self.now kind }
    {
        match kind {
            Kind::Universal => self.universal,
            Kind::Existential => self.existential,
            Kind::Applied => self.applied,
        }
    }
}

/// The i-th place; past the end no term has a tag.
pub fn slot_at(slots: &[Slot], i: usize) -> Slot
    ensures { result ≡ get_or slots.now i no_slot }
{
    if i < slots.len() {
        return slots[i];
    }
    Slot {
        cover: false,
        universal: false,
        existential: false,
        applied: false,
        mark: 0,
    }
}
