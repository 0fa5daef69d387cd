// Tries updates with the power cut between their flash operations and inside them: docs/POWERCUT.md has the options and the lines.
#![tactic(auto)]

mod data;
mod file;
mod kinds;
mod leftover;
mod lines;
mod message;
mod options;
mod picture;
mod scratch;
mod strips;
mod torn;
mod trial;
mod update;

use crate::file::written;
use crate::kinds::{KINDS, LEFTOVERS};
use crate::options::Options;
use crate::scratch::{MARKS, MARKS_SIZE, SCRATCH_SIZE};
use crate::trial::{Count, Plan, Setting};
use base::slice::part;
use program::arguments::text;
use program::bytes::copy;
use program::output::put;
use program::{arguments, image, output};
use region::{CAPACITY, REGION_SIZE};
use std::io;
use std::io::{BufWriter, IsTerminal, Write};
use std::num::wrapping_add_u32;
use std::rt::{Env, Files};

pub const PROGRAM: &[u8] = b"powercut";

// How many updates were tried, their cuts together, what the writes to standard output gave, and the picture's file, if a picture is asked for
// and no write to it failed. After a write to standard output that failed nothing more is written there.
#[derive(Drop)]
struct Tally<F: Write + Drop> {
    updates: u32,
    all: Count,
    said: io::Result<()>,
    picture: Option<BufWriter<F>>,
}

// The cuts of two updates together.
fn sum(a: Count, c: Count) -> Count {
    Count {
        cuts: wrapping_add_u32(a.cuts, c.cuts),
        inside: wrapping_add_u32(a.inside, c.inside),
        old: wrapping_add_u32(a.old, c.old),
        new: wrapping_add_u32(a.new, c.new),
        again: wrapping_add_u32(a.again, c.again),
        wrong: wrapping_add_u32(a.wrong, c.wrong),
        first: 0,
        byte: 0,
    }
}

// Clears the progress line.
fn clear<E: Write>(err: &mut E, progress: bool) -> io::Result<()> {
    if progress {
        put(err, b"\r\x1b[K")?;
    }
    Ok(())
}

// Prepares the image with a leftover, and the update's bytes.
fn prepare(image: &[u8], region: &mut [u8], data: &mut [u8], s: Setting) {
    copy(image, region, 0);
    let l = s.leftover;
    let k = s.update;
    leftover::leave(region, data, l);
    data::make(data, kinds::size(k), 0);
}

// Draws an update's column, if there is a picture.
fn drawn<E: Write, F: Write + Drop>(
    err: &mut E,
    picture: Option<BufWriter<F>>,
    p: Plan,
    c: Count,
    marks: &[u8],
    o: Options,
) -> Option<BufWriter<F>> {
    let mut file = picture?;
    let done = picture::draw(&mut file, marks, p, c, o.leftovers, o.updates);
    written(err, file, done)
}

// Writes an update's line and draws its column, and adds it to the others.
fn report<O: Write, E: Write, F: Write + Drop>(
    out: &mut O,
    err: &mut E,
    t: &mut Tally<F>,
    p: Plan,
    c: Count,
    marks: &[u8],
    o: Options,
) {
    if t.said.is_ok() {
        t.said = lines::update_line(out, p, c);
    }
    t.picture = drawn(err, t.picture.take(), p, c, marks, o);
    t.updates = wrapping_add_u32(t.updates, 1);
    t.all = sum(t.all, c);
}

// Tries an update on a prepared region.
fn tried<O: Write, E: Write, F: Write + Drop>(
    out: &mut O,
    err: &mut E,
    image: &[u8],
    region: &mut [u8],
    data: &[u8],
    scratch: &mut [u8],
    s: Setting,
    o: Options,
    t: &mut Tally<F>,
) {
    let p = trial::planned(region, data, s);
    strips::clear(scratch);
    let c = trial::trial(err, p, region, image, data, scratch);
    let _ = clear(err, s.progress);
    report(out, err, t, p, c, part(scratch, MARKS, MARKS_SIZE), o);
}

// Tries an update on the image with a leftover.
fn try_setting<O: Write, E: Write, F: Write + Drop>(
    out: &mut O,
    err: &mut E,
    image: &[u8],
    region: &mut [u8],
    data: &mut [u8],
    scratch: &mut [u8],
    s: Setting,
    o: Options,
    t: &mut Tally<F>,
) {
    prepare(image, region, data, s);
    tried(out, err, image, region, data, scratch, s, o, t);
}

// Tries all updates that are asked for.
fn try_combinations<O: Write, E: Write, F: Write + Drop>(
    out: &mut O,
    err: &mut E,
    image: &[u8],
    region: &mut [u8],
    data: &mut [u8],
    scratch: &mut [u8],
    o: Options,
    t: &mut Tally<F>,
) {
    for leftover in LEFTOVERS {
        for update in KINDS {
            if o.leftovers.has(leftover) & o.updates.has(update) {
                let s = Setting {
                    leftover,
                    update,
                    cuts: o.cuts,
                    progress: o.progress,
                };
                try_setting(out, err, image, region, data, scratch, s, o, t);
            }
        }
    }
}

fn start<E: Write, F: Write + Drop>(
    err: &mut E,
    o: Options,
    picture: Option<BufWriter<F>>,
) -> Tally<F> {
    let picture = match picture {
        Some(mut file) => {
            let done = picture::start(&mut file, o.updates, o.cuts);
            written(err, file, done)
        }
        None => None,
    };
    Tally {
        updates: 0,
        all: trial::none(),
        said: Ok(()),
        picture,
    }
}

fn finish<O: Write, E: Write, F: Write + Drop>(
    out: &mut O,
    err: &mut E,
    t: &mut Tally<F>,
    name: &[u8],
) {
    if t.said.is_ok() {
        t.said = lines::last_line(out, t.updates, t.all);
    }
    if let Some(mut file) = t.picture.take() {
        let done = picture::end(&mut file, name, t.updates, t.all);
        t.picture = written(err, file, done);
    }
}

// Tries them in buffers of a fixed size.
fn try_in_buffers<O: Write, E: Write, F: Write + Drop>(
    out: &mut O,
    err: &mut E,
    image: &[u8],
    region: &mut [u8; REGION_SIZE],
    data: &mut [u8; CAPACITY],
    scratch: &mut [u8; SCRATCH_SIZE],
    o: Options,
    t: &mut Tally<F>,
) {
    try_combinations(out, err, image, region, data, scratch, o, t);
}

fn with_buffers<O: Write, E: Write, F: Write + Drop>(
    out: &mut O,
    err: &mut E,
    image: &[u8],
    o: Options,
    t: &mut Tally<F>,
) {
    let mut region = image::buffer();
    let mut data = data::buffer();
    let mut scratch = scratch::buffer();
    try_in_buffers(out, err, image, &mut region, &mut data, &mut scratch, o, t);
}

// Tries the updates on an image, and gives what the writes to standard output gave, with the picture.
fn try_all<R: Env, O: Write, E: Write, F: Write + Drop>(
    rt: &R,
    out: &mut O,
    err: &mut E,
    image: &[u8; REGION_SIZE],
    o: Options,
    picture: Option<BufWriter<F>>,
    buffer: &mut [u8],
) -> (io::Result<()>, Option<BufWriter<F>>) {
    let mut t = start(err, o, picture);
    with_buffers(out, err, image, o, &mut t);
    let n = arguments::image_name(rt, o.images.index, buffer);
    finish(out, err, &mut t, part(buffer, 0, n));
    let Tally {
        updates: _,
        all: _,
        said,
        picture,
    } = t;
    (said, picture)
}

// Tries the updates on an image, and draws them if that is asked for. Gives what the writes to standard output gave.
fn try_updates<R: Env + Files + AllocGlobal, O: Write, E: Write>(
    rt: &R,
    out: &mut O,
    err: &mut E,
    image: &[u8; REGION_SIZE],
    o: Options,
    buffer: &mut [u8],
) -> io::Result<()> {
    let Some(index) = o.picture else {
        let (said, _none) = try_all(rt, out, err, image, o, None::<BufWriter<R::File>>, buffer);
        return said;
    };
    let Some(picture) = file::open(rt, err, PROGRAM, text(rt, index, buffer)) else {
        return Ok(());
    };
    let (said, picture) = try_all(rt, out, err, image, o, Some(picture), buffer);
    file::close(rt, err, PROGRAM, text(rt, index, buffer), picture);
    said
}

fn try_image<R: Env + Files + AllocGlobal + Input, O: Write, E: Write>(
    rt: &R,
    out: &mut O,
    err: &mut E,
    o: Options,
    buffer: &mut [u8],
) -> io::Result<()> {
    let n = arguments::image_name(rt, o.images.index, buffer);
    let mut image = image::buffer();
    let name = part(buffer, 0, n);
    let i = image::read(rt, err, PROGRAM, name, o.images.place, &mut image)?;
    match i {
        Some(_) => try_updates(rt, out, err, &image, o, buffer),
        None => Ok(()),
    }
}

// Whether progress is shown: if standard error is a terminal, or if it is asked for.
fn with_progress<E: IsTerminal>(err: &E, o: Options) -> Options {
    Options {
        progress: o.progress | err.is_terminal(),
        ..o
    }
}

// What its arguments ask for, or what is wrong with them. Gives what the writes to standard output gave.
fn run<R: Env + Files + AllocGlobal + Input, O: Write, E: Write + IsTerminal>(
    rt: &R,
    out: &mut O,
    err: &mut E,
) -> io::Result<()> {
    let mut buffer = arguments::buffer();
    match options::read(rt, &mut buffer) {
        Ok(o) => try_image(rt, out, err, with_progress(err, o), &mut buffer)?,
        Err(end) => message::report(rt, out, err, end, &mut buffer)?,
    }
    out.flush()
}

// The exit status is 0, whatever was written.
fn main(rt: HostRuntime) -> io::Result<()> {
    let mut out = BufWriter::new(rt.alloc(), rt.stdout())?;
    let mut err = rt.stderr();
    let done = run(&rt, &mut out, &mut err);
    let _ = output::finish(&mut err, PROGRAM, done);
    let (_out, _left) = out.into_parts();
    Ok(())
}
