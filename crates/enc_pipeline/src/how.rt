ghost use Rattle.std.specs.Prelude.{◌≡◌};
ghost use Rattle.enc_pipeline.specs.Way.{plain_way};

use enc_marks::Scheme;

/// The way in which a problem is to be encoded.
#[derive(Debug, Drop)]
pub struct How {
    pub scheme: Scheme,
    /// Whether it is monomorphised first.
    pub mono: bool,
    /// The most rounds of instances, from 0 to 8.
    pub rounds: u32,
    /// The most formulas of instances, from 1 to 100,000.
    pub cap: u32,
}

impl How {
    /// The way by a scheme where nothing else is asked for: without instances, of which there would
    /// be at most 3 rounds and 2,000 formulas.
    pub fn plain(scheme: Scheme) -> How
        ensures { result ≡ plain_way scheme }
    {
        How {
            scheme,
            mono: false,
            rounds: 3,
            cap: 2000,
        }
    }
}
