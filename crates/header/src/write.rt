// A bank's header as commit writes it, and whether a bank is fit to be committed.
ghost use Rattle.std.specs.Prelude.{◌≡◌, ◌*◌, ◌≤◌, min, length, take};
ghost use Rattle.std.proofs.lemmas.List.Edits.{sets};
ghost use Rattle.record.specs.Record.{record_size, source_bytes};
ghost use Rattle.base.specs.Lists.{puts, fill};
ghost use Rattle.header.specs.Header.{header_size, max_sources, data_crc_offset, records_offset};
ghost use Rattle.header.specs.WriteHeader.{magic_to_length, crc_to_checked, header_bytes, blank_word, commit_bytes, text_ok, is_fit};

use crate::{
    BLANK_WORD, Bank, CHECKED_OFFSET, COMMIT_OFFSET, COUNT_OFFSET, CRC_OFFSET, DATA_CRC_OFFSET,
    GENERATION_OFFSET, HEADER_SIZE, KEY_OFFSET, LENGTH_OFFSET, MAGIC, MAGIC_OFFSET, RECORDS_OFFSET,
    SOURCES, SOURCES_32, VERSION_OFFSET, ZERO_OFFSET, source_ok, span_ok,
};
use leaf::bytes::{WORD_SIZE, put, put_time};
use leaf::crc::crc32;
use record::{
    Block, ID_SIZE, MAX_ID, MAX_VALIDATOR, ORIGINAL_WORDS, RECORD_SIZE, STAMP_SIZE, Source,
    VALIDATOR_SIZE, encode, is_sized,
};

// How many records are written.
fn records(count: u32) -> usize
    ensures { result ≡ min count max_sources }
{
    count.min(SOURCES_32) as usize
}

// Bytes 0 to 15.
fn put_magic_to_length(out: &mut [u8], b: Bank)
    requires { length out.old ≡ header_size }
    ensures { out.new ≡ sets out.old 0 (magic_to_length b) }
{
    put(out, MAGIC_OFFSET, MAGIC);
    put(out, VERSION_OFFSET, b.version);
    put(out, GENERATION_OFFSET, b.generation);
    put(out, LENGTH_OFFSET, b.length);
}

// Bytes 16 to 39.
fn put_crc_to_checked(out: &mut [u8], b: Bank)
    requires { length out.old ≡ header_size }
    ensures { out.new ≡ sets out.old data_crc_offset (crc_to_checked b) }
{
    put(out, DATA_CRC_OFFSET, b.crc);
    put(out, COUNT_OFFSET, b.count);
    put(out, KEY_OFFSET, b.key);
    put(out, ZERO_OFFSET, 0);
    put_time(out, CHECKED_OFFSET, b.checked);
}

// Writes the first n records, one after the other.
fn put_records(out: &mut [u8], ss: [Source; SOURCES], n: usize)
    requires { (n ≤ max_sources) × (length out.old ≡ header_size) }
    ensures { (out.new ≡ sets out.old records_offset (puts source_bytes (take n ss))) × (length (puts source_bytes (take n ss)) ≡ n * record_size) × (length ss ≡ max_sources) }
{
    for (i, s) in ss[..n].iter().enumerate() {
        is_sized(*s);
        encode(*s, out, RECORDS_OFFSET + i * RECORD_SIZE);
    }
}

fn put_header(out: &mut [u8], b: Bank, ss: [Source; SOURCES])
    requires { (length out.old ≡ header_size) × (out.old ≡ fill 0 header_size) }
    ensures { out.new ≡ header_bytes b (take b.count ss) blank_word }
{
    put_magic_to_length(out, b);
    put_crc_to_checked(out, b);
    let n = records(b.count);
    put_records(out, ss, n);
    let crc = crc32(0, out);
    put(out, CRC_OFFSET, crc);
    put(out, COMMIT_OFFSET, BLANK_WORD);
}

// The header of a bank with the records below its count, 255 in the commit word.
pub fn header_bytes(b: Bank, ss: [Source; SOURCES]) -> [u8; HEADER_SIZE]
    ensures { result ≡ header_bytes b (take b.count ss) blank_word }
{
    let mut out = [0u8; HEADER_SIZE];
    put_header(&mut out, b, ss);
    out
}

// The bytes of the commit word, the lowest first.
const COMMIT_BYTES: [u8; WORD_SIZE] = [84, 77, 79, 67];

// The bytes of the commit word.
pub fn commit_bytes() -> [u8; WORD_SIZE]
    ensures { result ≡ commit_bytes }
{
    COMMIT_BYTES
}

fn text_ok(s: Source) -> bool
    ensures { result ≡ text_ok s }
{
    (s.idlen <= MAX_ID) & (s.validator[0] <= MAX_VALIDATOR)
}

// Whether a bank with the records below its count is fit to be committed.
pub fn fit(b: Bank, ss: [Source; SOURCES]) -> bool
    ensures { result ≡ is_fit b (take b.count ss) }
{
    let n = records(b.count);
    let below = &ss[..n];
    let sources = below.iter().all(|s| source_ok(b, *s));
    let texts = below.iter().all(|s| text_ok(*s));
    (span_ok(b) & sources) & texts
}
