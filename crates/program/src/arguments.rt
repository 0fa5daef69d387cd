// The program's arguments.
ghost use Rattle.std.specs.Prelude.{◌≡◌, ◌+◌, ◌≤◌, length, replicate, nat_lt};
ghost use Rattle.program.specs.Arguments.{argument_size};

use crate::bytes::copy;
use base::slice::part;
use std::env::FillError;
use std::rt::Env;

// Linux passes no longer argument.
pub const ARGUMENT_SIZE: usize = 131072;

// The image if none is named.
const DEFAULT_IMAGE_SIZE: usize = 20;

const DEFAULT_IMAGE: [u8; DEFAULT_IMAGE_SIZE] = *b"samples/two-good.img";

// A buffer of zeros for an argument.
pub fn buffer() -> [u8; ARGUMENT_SIZE]
    ensures { (result ≡ replicate argument_size 0) × (argument_size ≡ length result) }
{
    [0; ARGUMENT_SIZE]
}

// Whether n arguments follow the one at an index, if there are `count`.
pub fn follow(index: usize, n: usize, count: usize) -> bool
    ensures { result ≡ nat_lt (index + n) count }
{
    if count <= n {
        return false;
    }
    index < count - n
}

// How many arguments there are, the program's name among them.
pub fn count<R: Env>(rt: &R) -> usize {
    for i in 0..usize::MAX {
        if let Err(FillError::NotPresent) = rt.arg(i, &mut []) {
            return i;
        }
    }
    usize::MAX
}

// Writes the argument at an index to the start of a buffer and gives its length: 0 where it is missing or longer than the buffer. An argument
// may have any bytes, and no contract can say which. No `Option`: the promise is about a length, and a missing argument is told as an empty one.
pub fn read<R: Env>(rt: &R, index: usize, buffer: &mut [u8]) -> usize
    ensures { result ≤ length buffer.new }
{
    match rt.arg(index, buffer) {
        Ok(n) => n,
        Err(_) => 0,
    }
}

// The argument at an index, of which a buffer holds the bytes: none where it is missing or longer than the buffer.
pub fn text<'a, R: Env>(rt: &R, index: usize, buffer: &'a mut [u8]) -> &'a [u8]
    ensures { length result.now ≤ length buffer.old }
{
    let n = read(rt, index, buffer);
    part(buffer, 0, n)
}

// Writes the image's name to the start of a buffer and gives its length: the argument at an index, or the default's name. No contract can
// say what an argument is.
pub fn image_name<R: Env>(rt: &R, index: Option<usize>, buffer: &mut [u8]) -> usize
    ensures { result ≤ length buffer.new }
{
    if let Some(index) = index {
        return read(rt, index, buffer);
    }
    if buffer.len() < DEFAULT_IMAGE_SIZE {
        return 0;
    }
    let name = DEFAULT_IMAGE;
    copy(&name, buffer, 0);
    DEFAULT_IMAGE_SIZE
}
