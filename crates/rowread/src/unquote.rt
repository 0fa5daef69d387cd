// A quoted value, for every pass of the exact path: where it ends, how many bytes it has and, if `write`, its bytes. Where 24 bytes
// are left the quotes are found by marks, eight bytes at a time, and the bytes before each are copied as a block; the rest byte by byte.
ghost use Rattle.std.specs.Prelude.{◌≡◌, ◌+◌, ◌-◌, ◌≤◌, ◌<◌, length, drop};
ghost use Rattle.rfc4180.specs.Read.{inner};
ghost use Rattle.rowread.specs.Steps.{piece_of, block_size, searched_bytes, Grid, Turned, Filled, Room, Inside, ReadByMarks, slack_of};

use crate::Span;
use crate::line::{BLOCK, copy_block};
use crate::marks::{clear_first, first, load, quotes_of};
use base::number::LONG_BYTES;
use leaf::bytes::get8;
use rfc4180::QUOTE;

// How many bytes a turn by marks may read.
const SEARCHED: usize = LONG_BYTES + BLOCK;

// What a turn gives: how many bytes are copied, and what follows.
#[derive(Clone, Copy)]
pub(crate) enum Turn {
    // The value goes on at p; the word at i is searched next, which has the marks m.
    On {
        copied: usize,
        p: usize,
        i: usize,
        m: u64,
    },
    // The quote at p closes the value.
    Closed {
        copied: usize,
        p: usize,
    },
}

// A value that was read by marks, whole or in part.
#[derive(Clone, Copy)]
pub(crate) enum ByMarks {
    Whole(Span),
    Part(Span),
}

// A turn from p on; the word at i has the marks m.
fn search_on(t: &[u8], i: usize, p: usize, m: u64) -> Turn
    requires { Grid t.now i p m × (i + searched_bytes ≤ length t.now) }
    ensures { Turned t.now i p result }
{
    let following = i + LONG_BYTES;
    if m == 0 {
        let marks = quotes_of(load(t, following));
        return Turn::On {
            copied: following - p,
            p: following,
            i: following,
            m: marks,
        };
    }
    let q = i + first(m);
    if t[q + 1] != QUOTE {
        return Turn::Closed {
            copied: q - p,
            p: q,
        };
    }
    if q + 1 < following {
        let marks = clear_first(m);
        return Turn::On {
            copied: q + 1 - p,
            p: q + 2,
            i,
            m: clear_first(marks),
        };
    }
    let marks = quotes_of(load(t, following));
    Turn::On {
        copied: q + 1 - p,
        p: q + 2,
        i: following,
        m: clear_first(marks),
    }
}

// Unquotes by marks what follows an opening quote, while 24 bytes are left; if `write`, to out.
fn unquote_by_marks(t: &[u8], from: usize, out: &mut [u8], to: usize, write: bool) -> ByMarks
    requires searched_bytes_in_bounds { (from + searched_bytes ≤ length t.now) × (to ≤ from) }
    requires room { Room block_size write t.now from out.old to }
    ensures { ReadByMarks write t.now from out.old to out.new result }
{
    let mut p = from;
    let mut n = to;
    let mut i = from;
    let mut m = quotes_of(load(t, from));
    // No for: a turn moves i to the next word, or leaves it and moves p alone.
    while SEARCHED <= t.len() - i {
        let x = search_on(t, i, p, m);
        if write {
            copy_block(t, p, out, n);
        }
        match x {
            Turn::On {
                copied,
                p: following,
                i: word,
                m: marks,
            } => {
                n += copied;
                p = following;
                i = word;
                m = marks;
            }
            Turn::Closed { copied, p: quote } => {
                return ByMarks::Whole(Span {
                    next: quote + 1,
                    size: n + copied - to,
                });
            }
        }
    }
    ByMarks::Part(Span {
        next: p,
        size: n - to,
    })
}

// Unquotes what is left of a value byte by byte; if `write`, to out.
fn unquote_bytes(t: &[u8], from: usize, out: &mut [u8], to: usize, write: bool) -> Option<Span>
    requires from_in_bounds { (from ≤ length t.now) × (to ≤ from) }
    requires room { Room 0 write t.now from out.old to }
    ensures { (result ≡ piece_of (length t.now) (inner (drop from t.now))) × Filled 0 write out.old to (inner (drop from t.now)) out.new × Inside t.now from result }
{
    let mut p = from;
    let mut n = to;
    // No for: two quotes move p by two.
    while p < t.len() {
        let byte = t[p];
        p += 1;
        if byte == QUOTE {
            if get8(t, p) != QUOTE {
                return Some(Span {
                    next: p,
                    size: n - to,
                });
            }
            p += 1;
        }
        if write {
            out[n] = byte;
        }
        n += 1;
    }
    None
}

// Unquotes what follows an opening quote; if `write`, to out. If `ahead`, a block after the value may be overwritten.
pub(crate) fn unquote(
    t: &[u8],
    from: usize,
    out: &mut [u8],
    to: usize,
    write: bool,
    ahead: bool,
) -> Option<Span>
    requires from_in_bounds { (from ≤ length t.now) × (to ≤ from) }
    requires room { Room (slack_of ahead) write t.now from out.old to }
    ensures { (result ≡ piece_of (length t.now) (inner (drop from t.now))) × Filled (slack_of ahead) write out.old to (inner (drop from t.now)) out.new }
{
    if !ahead {
        return unquote_bytes(t, from, out, to, write);
    }
    if t.len() - from < SEARCHED {
        return unquote_bytes(t, from, out, to, write);
    }
    match unquote_by_marks(t, from, out, to, write) {
        ByMarks::Whole(v) => Some(v),
        ByMarks::Part(read) => {
            let rest = unquote_bytes(t, read.next, out, to + read.size, write)?;
            Some(Span {
                next: rest.next,
                size: read.size + rest.size,
            })
        }
    }
}
