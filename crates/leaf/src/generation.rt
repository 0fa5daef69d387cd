// Generations of banks.
ghost use Rattle.leaf.specs.Claims.{Generations};
ghost use Rattle.std.specs.Prelude.{◌≡◌};
ghost use Rattle.leaf.specs.Generation as Generation;

// Whether generation a is newer than b: they wrap, so the distance is read as signed.
pub fn newer(a: u32, b: u32) -> bool
    ensures { result ≡ Generation.newer a b }
{
    0 < a.wrapping_sub(b).cast_signed()
}

// The generation after g.
#[tactic(auto, unfolding(crate::specs::Generation::next))]
pub fn next(g: u32) -> u32
    ensures { result ≡ Generation.next g }
{
    g.wrapping_add(1)
}

// What holds of generations. The function does nothing: its contract is what is proved of the definitions
// (specs/Claims.antt).
pub fn generations_hold()
    ensures { Generations }
{}
