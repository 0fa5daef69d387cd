// Rows by RFC 4180: delimiters and limits.
#![tactic(auto)]

ghost use Rattle.std.specs.Prelude.{◌≡◌};
ghost use Rattle.rfc4180.specs.Csv.{is_text};
ghost use Rattle.rfc4180.specs.Claims.{Claims};

pub const QUOTE: u8 = 34;

pub const COMMA: u8 = 44;

pub const CR: u8 = 13;

pub const LF: u8 = 10;

// The most bytes of a row, with its row end.
pub const MAX_ROW: usize = 8192;

// The most columns of a table.
pub const MAX_COLUMNS: usize = 10;

// Whether a byte may be in a field without quotes.
pub fn is_text(b: u8) -> bool
    ensures { result ≡ is_text b }
{
    !((b == QUOTE) | ((b == COMMA) | ((b == CR) | (b == LF))))
}

// What holds of the grammar. The function does nothing: its contract is what is proved of the definitions.
pub fn rows_hold()
    ensures { Claims }
{}
