//! Looks into a text that take no care of its end.

ghost use Rattle.std.specs.Prelude.{◌≡◌, ◌-◌, slice_index, drop, length};

/// The byte at this index, or 0 where the text is shorter.
pub fn byte_at(text: &[u8], index: usize) -> u8
    ensures exact { result ≡ slice_index text.now index }
{
    text.get(index).copied().unwrap_or(0)
}

/// What is left behind so many bytes: nothing where the text is shorter.
pub fn behind(text: &[u8], count: usize) -> &[u8]
    ensures exact { result.now ≡ drop count text.now }
    ensures within { length result.now ≡ length text.now - count }
{
    if count <= text.len() {
        let (_, rest) = text.split_at(count);
        rest
    } else {
        &[]
    }
}
