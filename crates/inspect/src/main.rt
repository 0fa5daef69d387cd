// Says what is in a board's flash image: docs/INSPECT.md has the options and the lines.
#![tactic(auto)]

mod clock;
mod form;
mod json;
mod keytext;
mod lines;
mod listing;
mod message;
mod options;
mod out;
mod report;
mod state;
mod tables;
mod text;

use crate::form::Form;
use crate::json::Json;
use crate::lines::Lines;
use crate::options::{LENGTHS, Options, TEXTS_SIZE};
use crate::report::Wanted;
use base::slice::part;
use program::arguments::text as argument;
use program::image::{Image, REGION_OFFSET};
use program::{arguments, image, lengths, output};
use std::io;
use std::io::{BufWriter, Write};
use std::rt::{Env, Files};

pub const PROGRAM: &[u8] = b"inspect";

// The selection to match, if one is asked for: the identity is read into a buffer, the picks are in two.
fn wanted<'a>(
    rt: &impl Env,
    o: Options,
    buffer: &'a mut [u8],
    texts: &'a [u8],
    lengths: &'a [u32],
) -> Option<Wanted<'a>> {
    let s = o.selection?;
    let identity: &'a [u8] = match s.identity {
        Some(index) => argument(rt, index, buffer),
        None => &[],
    };
    Some(Wanted {
        identity,
        texts: part(texts, 0, s.texts),
        lengths: lengths::first(lengths, s.lengths),
    })
}

// What there is to report of an image, in a form.
fn report_in<R: Env, W: Write, F: Form>(
    rt: &R,
    out: &mut W,
    form: &F,
    region: &[u8],
    size: Option<u64>,
    o: Options,
    buffer: &mut [u8],
    texts: &[u8],
    lengths: &[u32],
) -> io::Result<()> {
    let n = arguments::image_name(rt, o.images.index, buffer);
    let offset = o.images.place.unwrap_or(REGION_OFFSET);
    form.start(out, part(buffer, 0, n), offset, size)?;
    let selected = wanted(rt, o, buffer, texts, lengths);
    report::region_report(out, form, region, o, selected)
}

fn inspect<R: Env + Files + Input, W: Write, E: Write>(
    rt: &R,
    out: &mut W,
    err: &mut E,
    o: Options,
    buffer: &mut [u8],
    texts: &[u8],
    lengths: &[u32],
) -> io::Result<()> {
    let n = arguments::image_name(rt, o.images.index, buffer);
    let name = part(buffer, 0, n);
    let mut region = image::buffer();
    let i = image::read(rt, err, PROGRAM, name, o.images.place, &mut region)?;
    let size = match i {
        None => return Ok(()),
        Some(Image::Region) => None,
        Some(Image::Dump(size)) => Some(size),
    };
    if o.json {
        report_in(rt, out, &Json, &region, size, o, buffer, texts, lengths)
    } else {
        report_in(rt, out, &Lines, &region, size, o, buffer, texts, lengths)
    }
}

// Reads the arguments, and writes what they ask for or what is wrong with them.
fn answer<R: Env + Files + Input, W: Write, E: Write>(
    rt: &R,
    out: &mut W,
    err: &mut E,
) -> io::Result<()> {
    let mut buffer = arguments::buffer();
    let mut texts = [0u8; TEXTS_SIZE];
    let mut lengths = [0u32; LENGTHS];
    match options::read(rt, &mut buffer, &mut texts, &mut lengths) {
        Ok(o) => inspect(rt, out, err, o, &mut buffer, &texts, &lengths),
        Err(end) => message::report(rt, out, err, end, &mut buffer),
    }
}

// Writes all to standard output, a buffer at a time.
fn run<E: Write>(rt: &HostRuntime, err: &mut E) -> io::Result<()> {
    let mut out = BufWriter::new(rt.alloc(), rt.stdout())?;
    answer(rt, &mut out, err)?;
    out.flush()
}

fn main(rt: HostRuntime) {
    let mut err = rt.stderr();
    let done = run(&rt, &mut err);
    // There is nowhere to tell what standard error doesn't take.
    let _ = output::finish(&mut err, PROGRAM, done);
}
