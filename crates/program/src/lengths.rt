// Lists of lengths.
ghost use Rattle.std.specs.Prelude.{◌≡◌, take, set as ListN·set};

// The first n lengths, or all.
pub fn first(lengths: &[u32], n: usize) -> &[u32]
    ensures { result.now ≡ take n lengths.now }
{
    if n < lengths.len() {
        return &lengths[..n];
    }
    lengths
}

// Writes a length at an index, if it fits.
pub fn set(lengths: &mut [u32], at: usize, n: u32)
    ensures { lengths.new ≡ ListN·set lengths.old at n }
{
    if at < lengths.len() {
        lengths[at] = n;
    }
}
