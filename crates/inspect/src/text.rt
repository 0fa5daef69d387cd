// Texts as they are printed.
use program::output::put;
use std::io::Write;
use std::{io, str};

// A character has at most so many bytes.
const LONGEST: usize = 4;

// The hexadecimal digits, and how many they are.
const HEX: u8 = 16;

static DIGITS: [u8; HEX as usize] = *b"0123456789abcdef";

// Whether a character isn't for the eye: controls, the soft hyphen, marks and overrides of the direction, joiners, separators of lines, the
// byte order mark and what is after it, tags.
fn is_hidden(c: char) -> bool {
    matches!(
        c as u32,
        0x80..=0x9f
            | 0xad
            | 0x61c
            | 0x200b..=0x200f
            | 0x2028..=0x202e
            | 0x2060..=0x206f
            | 0xfeff
            | 0xfff9..=0xffff
            | 0xe0000..=0xe0fff
    )
}

// Whether a character is printed as it is. In JSON every character of several bytes is.
fn is_shown(c: char, json: bool) -> bool {
    match c {
        '"' | '\\' => false,
        ' '..='~' => true,
        _ => !c.is_ascii() & (json | !is_hidden(c)),
    }
}

// The two hexadecimal digits of a byte; a `write!` for each byte took up to five times the instructions.
pub fn digits(b: u8) -> [u8; 2] {
    [DIGITS[usize::from(b / HEX)], DIGITS[usize::from(b % HEX)]]
}

// Prints bytes as \xNN, in JSON as \u00NN.
fn put_escaped<W: Write>(out: &mut W, bytes: &[u8], json: bool) -> io::Result<()> {
    for b in bytes {
        let [high, low] = digits(*b);
        if json {
            put(out, &[b'\\', b'u', b'0', b'0', high, low])?;
        } else {
            put(out, &[b'\\', b'x', high, low])?;
        }
    }
    Ok(())
}

fn put_char<W: Write>(out: &mut W, c: char, json: bool) -> io::Result<()> {
    let mut space = [0u8; LONGEST];
    let bytes = c.encode_utf8(&mut space).as_bytes();
    if is_shown(c, json) {
        return put(out, bytes);
    }
    put_escaped(out, bytes, json)
}

// Prints characters; most texts have none that is hidden, and are written at once.
fn put_characters<W: Write>(out: &mut W, text: &str, json: bool) -> io::Result<()> {
    if text.chars().all(|c| is_shown(c, json)) {
        return put(out, text.as_bytes());
    }
    for c in text.chars() {
        put_char(out, c, json)?;
    }
    Ok(())
}

// Prints a text, without quotes.
pub fn put_text<W: Write>(out: &mut W, s: &[u8], json: bool) -> io::Result<()> {
    for chunk in s.utf8_chunks() {
        if !chunk.valid().is_empty() {
            put_characters(out, chunk.valid(), json)?;
        }
        put_escaped(out, chunk.invalid(), json)?;
    }
    Ok(())
}

// Prints bytes in hexadecimal.
pub fn put_hex<W: Write>(out: &mut W, s: &[u8]) -> io::Result<()> {
    for b in s {
        put(out, &digits(*b))?;
    }
    Ok(())
}

// Prints a text in quotes; bytes that aren't UTF-8 are in JSON an object with their hexadecimal digits.
pub fn put_quoted<W: Write>(out: &mut W, s: &[u8], json: bool) -> io::Result<()> {
    if json & str::from_utf8(s).is_err() {
        put(out, b"{\"hex\":\"")?;
        put_hex(out, s)?;
        return put(out, b"\"}");
    }
    put(out, b"\"")?;
    put_text(out, s, json)?;
    put(out, b"\"")
}
