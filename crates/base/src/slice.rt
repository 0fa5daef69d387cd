// Parts of a slice of bytes, and two slices compared.
ghost use Rattle.base.specs.Claims.{Claims};
ghost use Rattle.std.specs.Prelude.{◌≡◌, take, drop};
ghost use Rattle.base.specs.Same.{same};

// The n bytes from offset `from` on, fewer where the slice ends.
pub fn part(b: &[u8], from: usize, n: usize) -> &[u8]
    ensures { result.now ≡ take n (drop from b.now) }
{
    let rest = &b[from.min(b.len())..];
    &rest[..n.min(rest.len())]
}

// Whether two slices have the same bytes.
pub fn same_bytes(a: &[u8], b: &[u8]) -> bool
    ensures { result ≡ same a.now b.now }
{
    a == b
}

// What holds of comparing bytes. The function does nothing: its contract is what is proved of the definitions
// (specs/Claims.antt).
pub fn same_holds()
    ensures { Claims }
{}
