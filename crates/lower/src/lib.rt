// The lower layer's calls that do no flash operation, a module each, and what they test: whether bytes may be appended, whether a table is
// open or may begin, and how much of the tail is free.
// A call and a test have two forms: NAME_parts does the work on what C lends (bankcore::lower_calls: the sources and the tail stay where they
// are), and NAME is it on a whole state, of which the upper layer and the theorems speak.
#![tactic(auto)]

pub mod append;
pub mod begin;
pub mod source;
pub mod table;

ghost use Rattle.std.specs.Prelude.{◌≡◌, List, ℕ, ◌≤◌};
ghost use Rattle.record.specs.declared.Source.{Source};
ghost use Rattle.writer.specs.State as State;
ghost use Rattle.writer.specs.Parts.{whole_of};
ghost use Rattle.lower.specs.Lower as Lower;

use base::number::WORD_BITS;
use writer::{
    Beginning, Contents, NO_TABLE, Parts, TAIL_SIZE_32, Tables, Writer, parts_in_range, parts_of,
};

// Whether bytes, sources and tables may be appended, by the parts of a state.
pub fn may_append_parts(b: Beginning, p: Parts) -> bool
    ensures { (ss : List Source) (tail : List ℕ) → result ≡ Lower.may_append (whole_of b p ss tail) }
{
    parts_in_range(b, p.contents, p.tables, p.stage) & !p.contents.closed
}

// Whether bytes, sources and tables may be appended.
pub fn may_append(w: Writer) -> bool
    ensures { result ≡ Lower.may_append w }
{
    let p = parts_of(w);
    may_append_parts(w.beginning, p)
}

pub fn is_open(s: Tables) -> bool
    ensures { result ≡ State.is_open s }
{
    !(s.table == NO_TABLE)
}

// Whether a table may end, by the parts of a state.
pub fn may_end_parts(b: Beginning, p: Parts) -> bool
    ensures { (ss : List Source) (tail : List ℕ) → result ≡ Lower.may_end (whole_of b p ss tail) }
{
    parts_in_range(b, p.contents, p.tables, p.stage) & is_open(p.tables)
}

// Whether a table may end.
pub fn may_end(w: Writer) -> bool
    ensures { result ≡ Lower.may_end w }
{
    let p = parts_of(w);
    may_end_parts(w.beginning, p)
}

fn begun_in(begun: u32, table: u32) -> bool
    ensures { result ≡ State.begun_in begun table }
{
    if table < WORD_BITS {
        return (begun >> table) % 2 == 1;
    }
    false
}

// Whether a table may begin.
pub fn may_begin(s: Tables, table: u32) -> bool
    ensures { result ≡ Lower.may_begin s table }
{
    !is_open(s)
        & ((1 <= s.count)
            & (!begun_in(s.begun, table) & ((table == 0) | !((s.count == 1) & (s.begun == 0)))))
}

// How many of n bytes the tail has free space for.
pub fn accepted(t: Contents, n: usize) -> usize
    ensures { (result ≡ Lower.accepted t n) × (result ≤ n) }
{
    if TAIL_SIZE_32 <= t.fill {
        return 0;
    }
    let free = (TAIL_SIZE_32 - t.fill) as usize;
    if n < free { n } else { free }
}
