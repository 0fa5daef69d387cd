// The upper layer: each call is a run of lower calls, done at once. The calls are in modules; here is the test that bytes fit.
#![tactic(auto)]

pub mod begin;
pub mod rows;
pub mod source;
pub mod table;

ghost use Rattle.std.specs.Prelude.{◌≡◌, ◌+◌, leb};
ghost use Rattle.writer.specs.State as State;
ghost use Rattle.region.specs.Region.{capacity};

use region::{CAPACITY, CAPACITY_64};
use writer::Contents;

// The longest key without an identity.
const MAX_BODY: usize = 2257;
// The buffer for a names line.
const NAMES_SIZE: usize = 128;
// The first buffer that a row is written to.
const SHORT_ROW: usize = 512;

// Whether n more bytes fit.
pub fn fits(t: Contents, n: usize) -> bool
    ensures { result ≡ leb (State.position t + n) capacity }
{
    if CAPACITY < n {
        return false;
    }
    t.written as u64 + t.fill as u64 + n as u64 <= CAPACITY_64
}
