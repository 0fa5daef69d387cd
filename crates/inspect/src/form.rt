// The two forms in which a report is printed: `lines::Lines` and `json::Json`. Each value is worked out once, in `report` and `listing`.
use crate::options::Options;
use crate::state::Found;
use header::Bank;
use record::{Block, Source};
use refusal::Refusal;
use snapshot::freshness::Freshness;
use std::io;
use std::io::Write;

// Where a row is: bank, source, table, and its offset in the table.
#[derive(Clone, Copy)]
pub struct Row {
    pub bank: u32,
    pub source: u32,
    pub table: u32,
    pub offset: usize,
}

// A table of a source: its block with the CRC that its bytes have, and the CRC and the length of the original.
#[derive(Clone, Copy)]
pub struct Table {
    pub source: u32,
    pub table: u32,
    pub block: Block,
    pub computed: u32,
    pub original_crc: u32,
    pub original_length: u32,
}

pub trait Form {
    // The image's name, and the region in an image of a size; none if the image is a region.
    fn start<W: Write>(
        &self,
        out: &mut W,
        name: &[u8],
        offset: usize,
        size: Option<u64>,
    ) -> io::Result<()>;

    // What only an object has: the names of its fields, and what is between them.
    fn field<W: Write>(&self, out: &mut W, text: &[u8]) -> io::Result<()>;

    // What isn't asked for.
    fn not_asked<W: Write>(&self, out: &mut W) -> io::Result<()>;

    // A bank, by the answer of validate and what its bytes say.
    fn bank<W: Write>(
        &self,
        out: &mut W,
        region: &[u8],
        number: u32,
        v: Result<Bank, Refusal>,
        f: Found,
    ) -> io::Result<()>;

    // What load gives.
    fn loaded<W: Write>(&self, out: &mut W, given: Option<u32>) -> io::Result<()>;

    // The bank that what follows is about, if one is asked for, and the one that load gives.
    fn asked<W: Write>(
        &self,
        out: &mut W,
        number: u32,
        asked: Option<u32>,
        given: Option<u32>,
    ) -> io::Result<()>;

    // That there is no bank to ask.
    fn no_bank<W: Write>(&self, out: &mut W, o: Options) -> io::Result<()>;

    // A key, as bytes and as texts.
    fn key<W: Write>(&self, out: &mut W, key: &[u8]) -> io::Result<()>;

    fn key_refused<W: Write>(&self, out: &mut W, r: Refusal) -> io::Result<()>;

    // A refusal of what is asked, with the start of its line.
    fn refused<W: Write>(&self, out: &mut W, start: &[u8], r: Refusal) -> io::Result<()>;

    // A source, up to its tables.
    fn source<W: Write>(&self, out: &mut W, i: u32, s: Source) -> io::Result<()>;

    fn table<W: Write>(&self, out: &mut W, t: Table) -> io::Result<()>;

    fn fresh<W: Write>(&self, out: &mut W, t: Freshness) -> io::Result<()>;

    // Whether the selection is that of the key.
    fn matched<W: Write>(&self, out: &mut W, word: &str) -> io::Result<()>;

    // A table's rows, up to the first.
    fn rows<W: Write>(&self, out: &mut W, source: u32, table: u32) -> io::Result<()>;

    // A row's values, which are joined, each with an end.
    fn row<W: Write>(&self, out: &mut W, r: Row, values: &[u8], ends: &[usize]) -> io::Result<()>;

    fn row_refused<W: Write>(&self, out: &mut W, r: Row, x: Refusal) -> io::Result<()>;
}
