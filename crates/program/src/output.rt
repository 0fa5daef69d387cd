// What is written on a writer: standard output, standard error or a file. No contract can say what is written.
//
// A write that fails gives its error, which each caller passes on. What its writer still holds is lost; who has the writer tells of it, with
// `finish` where it is standard output.
use crate::text::{between, find};
use std::io::{Cursor, Write};
use std::{fmt, io, str};

const MILLION: u32 = 1000000;

const THOUSAND: u32 = 1000;

// What stands between an error's text and its number, and room for all of them.
const NUMBER_OF_ERROR: &str = " (os error ";

const REASON_SIZE: usize = 512;

// A number that is written with a comma before each three digits; from a thousand million on there is none before the first three of them.
#[derive(Clone, Copy)]
pub struct Grouped(pub u32);

impl fmt::Display for Grouped {
    fn fmt<W: fmt::Write>(&self, f: &mut fmt::Formatter<W>) -> fmt::Result {
        let n = self.0;
        let millions = n / MILLION;
        let thousands = n / THOUSAND;
        if n < THOUSAND {
            return write!(f, "{n}");
        }
        if n < MILLION {
            return write!(f, "{thousands},{:03}", n % THOUSAND);
        }
        write!(
            f,
            "{millions},{:03},{:03}",
            thousands % THOUSAND,
            n % THOUSAND
        )
    }
}

// Writes a text of bytes. A text with numbers is written by `write!`.
pub fn put<W: Write>(out: &mut W, text: &[u8]) -> io::Result<()> {
    out.write_all(text)
}

// Why a call failed, in the system's words: std writes the error's number after them, which is left out.
fn put_reason<W: Write>(out: &mut W, why: &io::Error) -> io::Result<()> {
    let mut words = Cursor::new([0u8; REASON_SIZE]);
    write!(words, "{why}")?;
    let space = words.into_inner();
    let all = between(&space, 0, find(&space, 0, 0));
    let Ok(text) = str::from_utf8(all) else {
        return put(out, all);
    };
    match text.split_once(NUMBER_OF_ERROR) {
        Some((reason, _)) => put(out, reason.as_bytes()),
        None => put(out, all),
    }
}

// Writes a line: what failed, a colon and why.
pub fn fail<W: Write>(err: &mut W, what: &[u8], why: &io::Error) -> io::Result<()> {
    put(err, what)?;
    put(err, b": ")?;
    put_reason(err, why)?;
    put(err, b"\n")
}

// Says on standard error that a write failed, and why.
pub fn failed<W: Write>(err: &mut W, why: &io::Error) -> io::Result<()> {
    fail(err, b"can't write", why)
}

// Says so, and why, if not all of standard output was written.
pub fn finish<W: Write>(err: &mut W, program: &[u8], done: io::Result<()>) -> io::Result<()> {
    let Err(why) = done else {
        return Ok(());
    };
    failed(err, &why)?;
    put(err, program)?;
    put(err, b": can't write all of standard output\n")
}
