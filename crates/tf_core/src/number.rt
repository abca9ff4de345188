ghost use Rattle.std.specs.Prelude.{◌≡◌, max};

// the greater of two numbers
pub(crate) fn greater(a: u32, b: u32) -> u32
    ensures { result ≡ max a b }
{
    if a < b { b } else { a }
}
