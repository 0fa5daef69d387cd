// The help, and what is wrong with the arguments.
use crate::PROGRAM;
use program::message;
use program::options::End;
use std::io;
use std::io::Write;
use std::rt::Env;

const HELP: &str = "inspect [options] IMAGE

Says what is in a board's two timetable banks: each bank's header, or why it is
refused and what happened to it; the bank that load gives, its key and sources.

  IMAGE                the region of 983040 bytes, or a whole flash dump with
                       the region at 3145728 (0x300000): 4194304, 8388608 or
                       16777216 bytes; - for standard input. It is only read
  --offset BYTES       where the region starts in a dump, in decimal
  --sample             samples/two-good.img below the current folder
  --                   what follows is an image
  --bank N             ask of bank 0 or 1, also one that load doesn't give
  --now SECONDS        the time to ask freshness at, signed
  --days D1,D2,D3      three days to ask freshness for, each as year x 10000 +
                       month x 100 + day; needs --now
  --wanted F,F,F       which of the three days are wanted: y or n; default y,y,y
  --identity TEXT      the identity of the selection to match
  --pick LINE ROUTE CODE STOP NAME
                       one pick of the selection, '' for an empty field; may be
                       repeated
  --match              match the selection, also one without identity and picks
  --rows SOURCE TABLE  the stored rows of a table of a source: SOURCE is 0, 1, 2
                       or all, TABLE a table's name or all
  --json               one JSON object instead of lines
  --help               this text

With wrong arguments, an image of another size or one that can't be read, one
line is on standard error and nothing on standard output.
";

// Writes the help, or what is wrong with the arguments.
pub fn report<R: Env, W: Write, E: Write>(
    rt: &R,
    out: &mut W,
    err: &mut E,
    end: End,
    buffer: &mut [u8],
) -> io::Result<()> {
    message::report(rt, out, err, PROGRAM, HELP.as_bytes(), end, buffer)
}
