ghost use Rattle.std.specs.Prelude.{◌≡◌, ◌<◌, length, get_or, replicate};
ghost use Rattle.enc_base.specs.Tables.{tuple_count};
ghost use Rattle.enc_base.specs.Tuples.{tuple_at};
ghost use Rattle.tf_models.specs.Evaluation.{listed, IsNumber};

/// Members for type variables: a list of them, or the number of their tuple among those of `count`
/// numbers below `bound`, in lexicographic order.
#[derive(Clone, Copy)]
pub enum Members<'a> {
    Listed(&'a [u32]),
    Numbered(u64, u32, u32),
}

impl Members<'_> {
    /// The i-th member.
    pub fn at(self, i: u32) -> u32
        requires number { IsNumber self }
        requires within { i < length (listed self) }
        ensures { result ≡ get_or (listed self.entry) i 0 }
    {
        match self {
            Members::Listed(members) => members[i as usize],
            Members::Numbered(number, bound, count) => digit(number, bound, count, i),
        }
    }
}

// the i-th part of a tuple
fn digit(number: u64, bound: u32, count: u32, i: u32) -> u32
    requires bound { 0 < bound }
    requires number { number < tuple_count (replicate count bound) }
    requires within { i < count }
    ensures { result ≡ get_or (tuple_at bound count number) i 0 }
{
    let mut rest = number;
    for _ in i + 1..count {
        if rest == 0 {
            return 0;
        }
        rest /= bound as u64;
    }
    (rest % bound as u64) as u32
}
