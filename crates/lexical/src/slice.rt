// slice.rs: the bytes of a range. Virtual spaces are left out: no range here begins or ends inside a tab.
ghost use Rattle.std.specs.Prelude.{◌≡◌, ◌-◌, take, drop};

// The bytes between two indices, as far as there are any.
pub fn from_indices(bytes: &[u8], start: usize, end: usize) -> &[u8]
    ensures { result.now ≡ take (end - start) (drop start bytes.now) }
{
    let end = end.min(bytes.len());
    &bytes[start.min(end)..end]
}
