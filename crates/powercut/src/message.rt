// The help, and what is wrong with the arguments.
use crate::PROGRAM;
use program::message;
use program::options::End;
use std::io;
use std::io::Write;
use std::rt::Env;

// Says that the picture's file is there and is something else.
pub fn no_picture<E: Write>(err: &mut E, name: &[u8]) -> io::Result<()> {
    message::refuse(
        err,
        PROGRAM,
        name,
        b" is there already and isn't an SVG picture; it is left as it is\n",
    )
}

const HELP: &str = "powercut [options] IMAGE

Runs whole updates over a board's two timetable banks, cuts the power between
flash operations and inside them, and compares what load then gives with what
must be there.

  IMAGE                the region of 983040 bytes, or a whole flash dump with
                       the region at 3145728 (0x300000): 4194304, 8388608 or
                       16777216 bytes; - for standard input. It is only read
  --offset BYTES       where the region starts in a dump, in decimal
  --sample             samples/two-good.img below the current folder
  --                   what follows is an image
  --leftover KIND      what is in the bank that is written: found, erased,
                       older, half, headed, random or all; default all
  --update KIND        255, 257, full, compared, short (255 and 257) or all;
                       default short
  --torn CUTS          which cuts inside an operation: some (each byte of the
                       header sector's erase, the header's write and the commit
                       word, eight places in each other operation), all (each
                       byte of each operation) or none; default some
  --svg FILE           a picture for a browser: cut by cut, what load gave. A
                       file that isn't an SVG picture is left as it is
  --progress           say on standard error how far it is, as on a terminal
  --help               this text

A line for each update and one for all; it ends with how many cuts were wrong.
The exit status is always 0: programs in this language have no other. That of
./run powercut is 1 if a cut was wrong, 2 if the arguments or the image are,
and 3 if a write failed. With wrong arguments, an image of another size or one
that can't be read, one line is on standard error and nothing on standard
output.
";

// Writes the help, or what is wrong with the arguments.
pub fn report<R: Env, O: Write, E: Write>(
    rt: &R,
    out: &mut O,
    err: &mut E,
    end: End,
    buffer: &mut [u8],
) -> io::Result<()> {
    message::report(rt, out, err, PROGRAM, HELP.as_bytes(), end, buffer)
}
