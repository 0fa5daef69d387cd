// An image: a region, or a whole flash dump with the region in it.
ghost use Rattle.std.specs.Prelude.{◌≡◌, length, replicate};
ghost use Rattle.region.specs.Region.{region_size};

use crate::bytes::large_buffer;
use crate::message;
use crate::text::path_of;
use region::REGION_SIZE;
use std::io::{Input, Read, Write};
use std::num::wrapping_add_usize;
use std::rt::Files;
use std::{fs, io};

// The sizes of dumps that have the region at its offset on the board's flash, and one that is too short for that.
pub const SMALL_DUMP: usize = 2097152;

pub const DUMP_SIZE: usize = 4194304;

pub const LARGER_DUMP: usize = 8388608;

pub const LARGEST_DUMP: usize = 16777216;
// Where the region starts in a dump.
pub const REGION_OFFSET: usize = 3145728;

// What is read at most: a byte more than a dump shows that an image is longer than one.
const MOST_READ: usize = LARGEST_DUMP + 1;
// Each read but the last gives a byte or more.
const MOST_READS: u32 = MOST_READ as u32 + 1;

// The first bytes of a gzip file.
const GZIP: [u8; 2] = [31, 139];

// What was read: a region, or the region in a dump of this size.
#[derive(Clone, Copy, PartialEq, Eq)]
pub enum Image {
    Region,
    Dump(u64),
}

// Why an image isn't read to its end: its first bytes are a gzip file's, or a read failed.
#[derive(Clone, Copy)]
enum Unread {
    Compressed,
    Failed(io::Error),
}

impl From<io::Error> for Unread {
    fn from(why: io::Error) -> Unread {
        Unread::Failed(why)
    }
}

// A region of zeros.
pub fn buffer() -> [u8; REGION_SIZE]
    ensures { result ≡ replicate region_size 0 }
{
    [0; REGION_SIZE]
}

// One read into the region from an offset on.
fn read_to<F: Read>(from: &mut F, region: &mut [u8], at: usize) -> io::Result<usize> {
    if at < region.len() {
        return from.read(&mut region[at..]);
    }
    Ok(0)
}

// One read of at most n bytes into a buffer.
fn read_first<F: Read>(from: &mut F, bytes: &mut [u8], n: usize) -> io::Result<usize> {
    if n < bytes.len() {
        return from.read(&mut bytes[..n]);
    }
    from.read(bytes)
}

// One read of at most n bytes, which are dropped.
fn skip<F: Read>(from: &mut F, n: usize) -> io::Result<usize> {
    let mut space = large_buffer();
    read_first(from, &mut space, n)
}

// One read of the n bytes between an offset of the image and its region. The first bytes are read into the region, in case the image is a
// region; those of the region in a dump overwrite them.
fn read_before<F: Read>(from: &mut F, region: &mut [u8], at: usize, n: usize) -> io::Result<usize> {
    if at < region.len() {
        return read_first(from, &mut region[at..], n);
    }
    skip(from, n)
}

// One read at an offset of the image, whose region starts at another.
fn read_some<F: Read>(
    from: &mut F,
    region: &mut [u8],
    at: usize,
    start: usize,
) -> io::Result<usize> {
    if at < start {
        return read_before(from, region, at, start - at);
    }
    if at - start < REGION_SIZE {
        return read_to(from, region, at - start);
    }
    if at < MOST_READ {
        return skip(from, MOST_READ - at);
    }
    Ok(0)
}

fn is_compressed(region: &[u8]) -> bool {
    region.starts_with(&GZIP)
}

// Reads the region of an open image that starts at an offset, and gives the image's length, at most one byte more than the largest dump.
fn read_all<F: Read>(from: &mut F, region: &mut [u8], start: usize) -> Result<usize, Unread> {
    let mut at = 0;
    for _ in 0..MOST_READS {
        let got = read_some(from, region, at, start)?;
        if got == 0 {
            return Ok(at);
        }
        if (at == 0) & is_compressed(region) {
            return Err(Unread::Compressed);
        }
        at = wrapping_add_usize(at, got);
    }
    Ok(at)
}

// Whether a region at an offset ends in an image of a size.
fn fits(offset: usize, size: usize) -> bool {
    if size < REGION_SIZE {
        return false;
    }
    (offset <= size - REGION_SIZE) & (size <= LARGEST_DUMP)
}

fn is_dump(size: usize) -> bool {
    matches!(size, DUMP_SIZE | LARGER_DUMP | LARGEST_DUMP)
}

// What an image of a size is, with the region at a given offset.
fn image_with<W: Write>(
    err: &mut W,
    program: &[u8],
    name: &[u8],
    size: usize,
    offset: usize,
) -> io::Result<Option<Image>> {
    if fits(offset, size) {
        return Ok(Some(Image::Dump(size as u64)));
    }
    message::no_region(err, program, name, size, offset)?;
    Ok(None)
}

// What an image of a size is.
fn image_by_size<W: Write>(
    err: &mut W,
    program: &[u8],
    name: &[u8],
    size: usize,
) -> io::Result<Option<Image>> {
    if size == REGION_SIZE {
        return Ok(Some(Image::Region));
    }
    if is_dump(size) {
        return Ok(Some(Image::Dump(size as u64)));
    }
    if size == SMALL_DUMP {
        message::no_region(err, program, name, size, REGION_OFFSET)?;
    } else {
        message::wrong_size(err, program, name, size)?;
    }
    Ok(None)
}

// Reads the region of the named image, standard input for "-", and gives the image's length.
fn read_named<R: Files + Input>(
    rt: &R,
    name: &[u8],
    start: usize,
    region: &mut [u8],
) -> Result<usize, Unread> {
    match name {
        b"-" => read_all(&mut rt.reader(), region, start),
        _ => read_all(&mut fs::open(rt, path_of(name)?)?, region, start),
    }
}

// Reads the region of the named image: it starts at a given offset, or where the image's size says. None if nothing of use was read; then
// standard error says why. No contract can say what a file holds.
pub fn read<R: Files + Input, W: Write>(
    rt: &R,
    err: &mut W,
    program: &[u8],
    name: &[u8],
    place: Option<usize>,
    region: &mut [u8; REGION_SIZE],
) -> io::Result<Option<Image>>
    ensures { length region.new ≡ length region.old }
{
    match read_named(rt, name, place.unwrap_or(REGION_OFFSET), region) {
        Ok(n) => match place {
            Some(offset) => image_with(err, program, name, n, offset),
            None => image_by_size(err, program, name, n),
        },
        Err(Unread::Compressed) => {
            message::compressed(err, program, name)?;
            Ok(None)
        }
        Err(Unread::Failed(why)) => {
            message::unread(err, program, name, &why)?;
            Ok(None)
        }
    }
}
