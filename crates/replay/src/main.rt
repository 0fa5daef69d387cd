// Replays the Rust's answers of answers.txt, and says for each kind how many of the core's answers are the same. The list's first lines say
// how it was made.
#![tactic(auto)]

mod banks;
mod filter;
mod image;
mod keys;
mod kinds;
mod line;
mod rows;
mod text;

ghost use Rattle.std.specs.Prelude.{◌≡◌, ◌≤◌, IfOk, length};
ghost use Rattle.replay.specs.Sizes.{list_size};

use crate::kinds::{KINDS, Kind};
use base::slice::part;
use program::bytes::read_full;
use program::output::{fail, failed};
use region::REGION_SIZE;
use std::io::{BufWriter, Stderr, Write};
use std::{fmt, fs, io};

// The list is shorter.
const LIST_SIZE: usize = 524288;

// How many lines there were, and for how many the answers were the same.
#[derive(Clone, Copy)]
struct Count {
    seen: u64,
    same: u64,
}

const NONE: Count = Count { seen: 0, same: 0 };

impl Count {
    fn add(&mut self, same: bool) {
        self.seen = self.seen.wrapping_add(1);
        if same {
            self.same = self.same.wrapping_add(1);
        }
    }
}

// As the report has it.
impl fmt::Display for Count {
    fn fmt<W: fmt::Write>(&self, f: &mut fmt::Formatter<W>) -> fmt::Result {
        let seen = self.seen;
        let same = self.same;
        write!(f, "{seen} answers, {same} alike")
    }
}

// The lines of each kind, and all.
#[derive(Clone, Copy)]
struct Counts {
    kinds: [Count; KINDS],
    all: Count,
}

fn counted(mut c: Counts, k: Kind, same: bool) -> Counts {
    if let Some(of_kind) = c.kinds.get_mut(k as usize) {
        of_kind.add(same);
    }
    c.all.add(same);
    c
}

// Replays line n; comments, empty lines and those that build the region aren't counted.
fn step<W: Write>(
    out: &mut W,
    c: Counts,
    n: u64,
    l: &[u8],
    memory: &mut [u8],
) -> io::Result<Counts> {
    let a = leaf::bytes::get8(l, 0);
    if a == b'#' || l.len() == 0 {
        return Ok(c);
    }
    if image::build(l, memory) {
        return Ok(c);
    }
    let k = Kind::of(l);
    let same = line::is_alike(k, l, memory);
    if !same {
        writeln!(out, "line {n} differs")?;
    }
    Ok(counted(c, k, same))
}

// Replays all lines.
fn replayed<W: Write>(out: &mut W, s: &[u8], memory: &mut [u8]) -> io::Result<Counts> {
    let mut c = Counts {
        kinds: [NONE; KINDS],
        all: NONE,
    };
    let mut n: u64 = 0;
    for l in s.split(|b| *b == b'\n') {
        n = n.wrapping_add(1);
        c = step(out, c, n, l, memory)?;
    }
    Ok(c)
}

// A line for each kind, and one for all.
fn report<W: Write>(out: &mut W, c: Counts) -> io::Result<()> {
    for (kind, count) in kinds::ALL.iter().zip(c.kinds.iter()) {
        writeln!(out, "{}: {}", *kind, *count)?;
    }
    writeln!(out, "all        : {}", c.all)
}

// A buffer of zeros for the list. No `Vec`: where there is no list, that is told before memory is asked for.
fn list_buffer() -> [u8; LIST_SIZE]
    ensures { list_size ≡ length result }
{
    [0; LIST_SIZE]
}

fn replay<W: Write>(out: &mut W, s: &[u8], memory: &mut [u8; REGION_SIZE]) -> io::Result<()> {
    let c = replayed(out, s, memory)?;
    report(out, c)
}

// Where the list is, in the folder that the program runs in.
const LIST: &str = "answers.txt";

// Reads the list to the start of a buffer, and gives its length.
fn read_list(rt: &HostRuntime, list: &mut [u8]) -> io::Result<usize>
    ensures { IfOk result (λ n. n ≤ length list.new) }
{
    let mut file = fs::open(rt, LIST)?;
    read_full(&mut file, list)
}

// Replays the list; where there is none, standard error says why.
fn run(rt: &HostRuntime, err: &mut Stderr) -> io::Result<()> {
    let mut list = list_buffer();
    let n = match read_list(rt, &mut list) {
        Ok(n) => n,
        Err(why) => return fail(err, LIST.as_bytes(), &why),
    };
    let mut memory = program::image::buffer();
    let mut out = BufWriter::new(rt.alloc(), rt.stdout())?;
    replay(&mut out, part(&list, 0, n), &mut memory)?;
    out.flush()
}

fn main(rt: HostRuntime) -> io::Result<()> {
    let mut err = rt.stderr();
    match run(&rt, &mut err) {
        Ok(()) => Ok(()),
        Err(why) => failed(&mut err, &why),
    }
}
