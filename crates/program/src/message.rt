// The one line on standard error that says what is wrong. Each function is passed the writer and the program's name; no contract can say
// what is written.
ghost use Rattle.std.specs.Prelude.{◌≡◌, length};

use crate::arguments;
use crate::image::{DUMP_SIZE, LARGER_DUMP, LARGEST_DUMP};
use crate::options::End;
use crate::output::{fail, put};
use region::REGION_SIZE;
use std::io;
use std::io::Write;
use std::rt::Env;

fn start<W: Write>(err: &mut W, program: &[u8]) -> io::Result<()> {
    put(err, program)?;
    put(err, b": ")
}

fn see_help<W: Write>(err: &mut W, program: &[u8]) -> io::Result<()> {
    put(err, b"; see ")?;
    put(err, program)?;
    put(err, b" --help\n")
}

// Says what is wrong with the arguments.
fn wrong<W: Write>(err: &mut W, program: &[u8], text: &[u8]) -> io::Result<()> {
    start(err, program)?;
    put(err, text)?;
    see_help(err, program)
}

fn no_option<W: Write>(err: &mut W, program: &[u8], argument: &[u8]) -> io::Result<()> {
    start(err, program)?;
    put(err, b"there is no option ")?;
    put(err, argument)?;
    see_help(err, program)
}

// Says that no image is named.
fn no_image<W: Write>(err: &mut W, program: &[u8]) -> io::Result<()> {
    start(err, program)?;
    put(err, b"no image is named; usage: ")?;
    put(err, program)?;
    put(err, b" [options] IMAGE, or ")?;
    put(err, program)?;
    put(err, b" --sample for the one in samples/")?;
    see_help(err, program)
}

// Writes the help, or says what is wrong with the arguments. The buffer is for one of them.
pub fn report<R: Env, O: Write, E: Write>(
    rt: &R,
    out: &mut O,
    err: &mut E,
    program: &[u8],
    help: &[u8],
    end: End,
    buffer: &mut [u8],
) -> io::Result<()>
    ensures { length buffer.new ≡ length buffer.old }
{
    match end {
        End::Help => put(out, help),
        End::NoOption(index) => no_option(err, program, arguments::text(rt, index, buffer)),
        End::NoImage => no_image(err, program),
        End::Wrong(text) => wrong(err, program, text.as_bytes()),
    }
}

// Says something of a file.
pub fn refuse<W: Write>(err: &mut W, program: &[u8], name: &[u8], text: &[u8]) -> io::Result<()> {
    start(err, program)?;
    put(err, name)?;
    put(err, text)
}

// Says that a file can't be read, and why.
pub fn unread<W: Write>(
    err: &mut W,
    program: &[u8],
    name: &[u8],
    why: &io::Error,
) -> io::Result<()> {
    start(err, program)?;
    put(err, name)?;
    fail(err, b" can't be read", why)
}

// Says that a file can't be written, and why.
pub fn unwritten<W: Write>(
    err: &mut W,
    program: &[u8],
    name: &[u8],
    why: &io::Error,
) -> io::Result<()> {
    start(err, program)?;
    put(err, b"can't write ")?;
    fail(err, name, why)
}

// Says that not all of a file was written; `output::failed` says why, before it.
pub fn unfinished<W: Write>(err: &mut W, program: &[u8], name: &[u8]) -> io::Result<()> {
    start(err, program)?;
    put(err, b"can't write all of ")?;
    put(err, name)?;
    put(err, b"\n")
}

// How many bytes a file has.
fn has_bytes<W: Write>(err: &mut W, program: &[u8], name: &[u8], n: usize) -> io::Result<()> {
    start(err, program)?;
    put(err, name)?;
    if LARGEST_DUMP < n {
        write!(err, " has more than {LARGEST_DUMP} bytes")
    } else {
        write!(err, " has {n} bytes")
    }
}

// Says that an image has a wrong size.
pub fn wrong_size<W: Write>(err: &mut W, program: &[u8], name: &[u8], n: usize) -> io::Result<()> {
    has_bytes(err, program, name, n)?;
    write!(
        err,
        "; expected a region of {REGION_SIZE} bytes or a whole flash dump of {DUMP_SIZE}, {LARGER_DUMP} or {LARGEST_DUMP} bytes, or --offset"
    )?;
    see_help(err, program)
}

// Says that an image has no region at an offset.
pub fn no_region<W: Write>(
    err: &mut W,
    program: &[u8],
    name: &[u8],
    n: usize,
    offset: usize,
) -> io::Result<()> {
    has_bytes(err, program, name, n)?;
    write!(
        err,
        "; it holds no region of {REGION_SIZE} bytes at {offset}, see --offset"
    )?;
    see_help(err, program)
}

// Says that an image is compressed.
pub fn compressed<W: Write>(err: &mut W, program: &[u8], name: &[u8]) -> io::Result<()> {
    refuse(
        err,
        program,
        name,
        b" is a gzip file; decompress it first, as with gunzip -k\n",
    )
}
