// The kinds of lines that the list has answers of.
use crate::text::first_word;
use std::fmt;

// Leaves and keys, banks, rows and filter; unknown is none of them.
#[derive(Clone, Copy, PartialEq, Eq)]
pub enum Kind {
    ValidDate,
    NewDate,
    Newer,
    Next,
    Crc,
    Get,
    Put,
    GetTime,
    PutTime,
    Rotate,
    Key,
    SameKey,
    Validate,
    Header,
    Load,
    Source,
    Fresh,
    CheckStart,
    CheckTurn,
    BankKey,
    NamesLine,
    Row,
    ReadRow,
    Insert,
    Query,
    Bytes,
    Sum,
    Unknown,
}

pub const KINDS: usize = 28;

// All kinds, in the report's order.
pub const ALL: [Kind; KINDS] = [
    Kind::ValidDate,
    Kind::NewDate,
    Kind::Newer,
    Kind::Next,
    Kind::Crc,
    Kind::Get,
    Kind::Put,
    Kind::GetTime,
    Kind::PutTime,
    Kind::Rotate,
    Kind::Key,
    Kind::SameKey,
    Kind::Validate,
    Kind::Header,
    Kind::Load,
    Kind::Source,
    Kind::Fresh,
    Kind::CheckStart,
    Kind::CheckTurn,
    Kind::BankKey,
    Kind::NamesLine,
    Kind::Row,
    Kind::ReadRow,
    Kind::Insert,
    Kind::Query,
    Kind::Bytes,
    Kind::Sum,
    Kind::Unknown,
];

impl Kind {
    // The kind of a line, by its first word.
    pub fn of(l: &[u8]) -> Kind {
        let Some(word) = first_word(l) else {
            return Kind::Unknown;
        };
        match word {
            b"date" => Kind::ValidDate,
            b"new" => Kind::NewDate,
            b"newer" => Kind::Newer,
            b"next" => Kind::Next,
            b"crc" => Kind::Crc,
            b"get" => Kind::Get,
            b"put" => Kind::Put,
            b"time" => Kind::GetTime,
            b"puttime" => Kind::PutTime,
            b"rotate" => Kind::Rotate,
            b"key" => Kind::Key,
            b"samekey" => Kind::SameKey,
            b"validate" => Kind::Validate,
            b"header" => Kind::Header,
            b"load" => Kind::Load,
            b"source" => Kind::Source,
            b"fresh" => Kind::Fresh,
            b"start" => Kind::CheckStart,
            b"turn" => Kind::CheckTurn,
            b"bankkey" => Kind::BankKey,
            b"names" => Kind::NamesLine,
            b"row" => Kind::Row,
            b"read" => Kind::ReadRow,
            b"insert" => Kind::Insert,
            b"query" => Kind::Query,
            b"holds" => Kind::Bytes,
            b"sum" => Kind::Sum,
            _ => Kind::Unknown,
        }
    }
}

// The kind as the report has it.
impl fmt::Display for Kind {
    fn fmt<W: fmt::Write>(&self, f: &mut fmt::Formatter<W>) -> fmt::Result {
        let name = match self {
            Kind::ValidDate => "valid_date",
            Kind::NewDate => "Date::new",
            Kind::Newer => "newer",
            Kind::Next => "next",
            Kind::Crc => "crc32",
            Kind::Get => "get",
            Kind::Put => "put",
            Kind::GetTime => "get_time",
            Kind::PutTime => "put_time",
            Kind::Rotate => "rotate13",
            Kind::Key => "key",
            Kind::SameKey => "same_key",
            Kind::Validate => "validate",
            Kind::Header => "header",
            Kind::Load => "load",
            Kind::Source => "source",
            Kind::Fresh => "fresh",
            Kind::CheckStart => "check_start",
            Kind::CheckTurn => "check_turn",
            Kind::BankKey => "bank's key",
            Kind::NamesLine => "names_line",
            Kind::Row => "row",
            Kind::ReadRow => "read_row",
            Kind::Insert => "insert",
            Kind::Query => "query",
            Kind::Bytes => "bytes",
            Kind::Sum => "their CRC",
            Kind::Unknown => "unknown",
        };
        write!(f, "{name:11}")
    }
}
