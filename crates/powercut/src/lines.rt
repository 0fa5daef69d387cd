// The lines on standard output.
use crate::trial::{Count, Plan};
use header::Bank;
use program::output::{Grouped, put};
use refusal::Refusal;
use std::io;
use std::io::Write;
use std::num::wrapping_sub_u32;

fn put_bank<W: Write>(out: &mut W, b: Bank) -> io::Result<()> {
    write!(out, "bank {} of generation {}", b.number, b.generation)
}

fn put_loaded<W: Write>(out: &mut W, l: Result<Option<Bank>, Refusal>) -> io::Result<()> {
    match l {
        Ok(Some(b)) => put_bank(out, b),
        _ => put(out, b"no bank"),
    }
}

fn put_verdict<W: Write>(out: &mut W, c: Count) -> io::Result<()> {
    let wrong = Grouped(c.wrong);
    let first = Grouped(c.first);
    match (c.wrong, c.byte) {
        (0, _) => put(out, b"; right"),
        (_, 0) => write!(out, "; {wrong} WRONG, the first at cut {first}"),
        (_, byte) => write!(
            out,
            "; {wrong} WRONG, the first at byte {} of operation {first}",
            Grouped(byte)
        ),
    }
}

// The result of an update's cuts.
pub fn put_counts<W: Write>(out: &mut W, p: Plan, c: Count) -> io::Result<()> {
    write!(
        out,
        "{} operations, {} cuts between operations, {} inside: {} gave ",
        Grouped(wrapping_sub_u32(c.cuts, 1)),
        Grouped(c.cuts),
        Grouped(c.inside),
        Grouped(c.old)
    )?;
    put_loaded(out, p.found)?;
    write!(out, ", {} gave ", Grouped(c.new))?;
    put_bank(out, p.fresh)?;
    write!(out, "; {} begun again", Grouped(c.again))?;
    put_verdict(out, c)
}

// The line of an update that was tried. It is written out at once, so that a long run can be followed.
pub fn update_line<W: Write>(out: &mut W, p: Plan, c: Count) -> io::Result<()> {
    let leftover = p.setting.leftover;
    let update = p.setting.update;
    write!(out, "leftover {leftover}, {update}: ")?;
    put_counts(out, p, c)?;
    put(out, b"\n")?;
    out.flush()
}

// The result of all updates.
pub fn put_total<W: Write>(out: &mut W, updates: u32, all: Count) -> io::Result<()> {
    if updates == 1 {
        put(out, b"1 update")?;
    } else {
        write!(out, "{} updates", Grouped(updates))?;
    }
    write!(
        out,
        ", {} cuts between operations, {} inside, {} begun again, {} wrong",
        Grouped(all.cuts),
        Grouped(all.inside),
        Grouped(all.again),
        Grouped(all.wrong)
    )
}

pub fn last_line<W: Write>(out: &mut W, updates: u32, all: Count) -> io::Result<()> {
    put_total(out, updates, all)?;
    put(out, b"\n")
}
