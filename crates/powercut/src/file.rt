// The picture's file. It is written under another name and gets its own once it is whole, so a write that fails leaves what was there. A
// file that is there and isn't a picture, such as the image, is never written. No one can be told of a write to standard error that fails.
use base::slice::part;
use program::bytes::{copy, read_full};
use program::message::{unfinished, unwritten};
use program::output::failed;
use program::text::path_of;
use std::fs::{File, OpenOptions};
use std::io::{BufWriter, ErrorKind, Read, Write};
use std::num::wrapping_add_usize;
use std::rt::Files;
use std::{fs, io};

// What a picture starts with.
const MARK_SIZE: usize = 4;

const MARK: &[u8] = b"<svg";

// The new file has the picture's name with this ending.
const ENDING_SIZE: usize = 5;

const ENDING: &[u8] = b".part";

// The system opens no longer path.
const PATH_SIZE: usize = 4096;

// A path with that ending.
const NAME_SIZE: usize = PATH_SIZE + ENDING_SIZE;

fn is_picture<F: Read>(file: &mut F) -> bool {
    let mut space = [0u8; MARK_SIZE];
    let n = read_full(file, &mut space).unwrap_or(0);
    part(&space, 0, n) == MARK
}

fn open_read<R: Files>(rt: &R, name: &[u8]) -> io::Result<R::File> {
    File::open(rt, path_of(name)?)
}

// Whether a picture may be written under a name: nothing is there, or a picture is.
fn may_be_written<R: Files>(rt: &R, name: &[u8]) -> io::Result<bool> {
    match open_read(rt, name) {
        Ok(mut file) => Ok(is_picture(&mut file)),
        Err(why) => {
            if why.kind() == ErrorKind::NotFound {
                Ok(true)
            } else {
                Err(why)
            }
        }
    }
}

// The new file's name, NAME.part, of which a buffer holds the bytes.
fn new_name<'a>(name: &[u8], out: &'a mut [u8]) -> &'a [u8] {
    copy(name, out, 0);
    copy(ENDING, out, name.len());
    part(out, 0, wrapping_add_usize(name.len(), ENDING_SIZE))
}

fn remove<R: Files>(rt: &R, name: &[u8]) -> io::Result<()> {
    fs::remove_file(rt, path_of(name)?)
}

// Makes a file that isn't there yet.
fn create_new<R: Files + AllocGlobal>(rt: &R, name: &[u8]) -> io::Result<BufWriter<R::File>> {
    let file = OpenOptions::new()
        .write(true)
        .create_new(true)
        .open(rt, path_of(name)?)?;
    match BufWriter::new(rt.alloc(), file) {
        Ok(buffered) => Ok(buffered),
        Err(why) => {
            let _ = remove(rt, name);
            Err(why)
        }
    }
}

fn create<R: Files + AllocGlobal, E: Write>(
    rt: &R,
    err: &mut E,
    program: &[u8],
    name: &[u8],
) -> Option<BufWriter<R::File>> {
    let mut space = [0u8; NAME_SIZE];
    let new = new_name(name, &mut space);
    match create_new(rt, new) {
        Ok(file) => Some(file),
        Err(why) => {
            let _ = unwritten(err, program, new, &why);
            None
        }
    }
}

// Opens the new file for a picture. If it can't be written, standard error says why.
pub fn open<R: Files + AllocGlobal, E: Write>(
    rt: &R,
    err: &mut E,
    program: &[u8],
    name: &[u8],
) -> Option<BufWriter<R::File>> {
    match may_be_written(rt, name) {
        Ok(true) => create(rt, err, program, name),
        Ok(false) => {
            let _ = crate::message::no_picture(err, name);
            None
        }
        Err(why) => {
            let _ = unwritten(err, program, name, &why);
            None
        }
    }
}

// The file after a write to it. One that failed is told, and what is left of it isn't tried again: the file is closed.
pub fn written<F: Write + Drop, E: Write>(
    err: &mut E,
    file: BufWriter<F>,
    done: io::Result<()>,
) -> Option<BufWriter<F>> {
    match done {
        Ok(()) => Some(file),
        Err(why) => {
            let (_file, _left) = file.into_parts();
            let _ = failed(err, &why);
            None
        }
    }
}

// Writes what is left of a picture and closes its file; whether all of it is written.
fn is_whole<F: Write + Drop, E: Write>(err: &mut E, picture: Option<BufWriter<F>>) -> bool {
    let Some(mut file) = picture else {
        return false;
    };
    let done = file.flush();
    written(err, file, done).is_some()
}

fn rename<R: Files>(rt: &R, from: &[u8], to: &[u8]) -> io::Result<()> {
    fs::rename(rt, path_of(from)?, path_of(to)?)
}

// Gives a whole picture its name; removes one that isn't.
pub fn close<R: Files, E: Write>(
    rt: &R,
    err: &mut E,
    program: &[u8],
    name: &[u8],
    picture: Option<BufWriter<R::File>>,
) {
    let mut space = [0u8; NAME_SIZE];
    let new = new_name(name, &mut space);
    if !is_whole(err, picture) {
        let _ = unfinished(err, program, name);
        let _ = remove(rt, new);
        return;
    }
    if let Err(why) = rename(rt, new, name) {
        let _ = unwritten(err, program, name, &why);
        let _ = remove(rt, new);
    }
}
