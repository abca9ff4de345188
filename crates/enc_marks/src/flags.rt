ghost use Rattle.std.specs.Prelude.{◌<◌, ◌^◌, length};

/// Which symbols occur in formulas, as a flag for each number up to the greatest one.
#[derive(Debug, Drop)]
pub struct Occurring {
    pub flags: Vec<bool>,
    ghost short: { length flags.items < 2 ^ 32 },
}
