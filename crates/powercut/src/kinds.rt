// The kinds of leftovers and of updates.
use program::number::low32;
use program::output::Grouped;
use region::{CAPACITY, CAPACITY_32, SECTOR_SIZE_32};
use std::fmt;
use writer::{TAIL_SIZE, TAIL_SIZE_32};

// What is in the bank that is written: what the image has, nothing, a bank that is a generation older, an update cut half-way, one with only its
// commit word missing, pseudorandom bytes.
#[derive(Clone, Copy, PartialEq, Eq)]
pub enum Leftover {
    Found,
    Erased,
    Older,
    Half,
    Headed,
    Random,
}

// In the order in which they are tried.
pub const LEFTOVERS: [Leftover; 6] = [
    Leftover::Found,
    Leftover::Erased,
    Leftover::Older,
    Leftover::Half,
    Leftover::Headed,
    Leftover::Random,
];

impl fmt::Display for Leftover {
    fn fmt<W: fmt::Write>(&self, f: &mut fmt::Formatter<W>) -> fmt::Result {
        f.write_str(match self {
            Leftover::Found => "found",
            Leftover::Erased => "erased",
            Leftover::Older => "older",
            Leftover::Half => "half",
            Leftover::Headed => "headed",
            Leftover::Random => "random",
        })
    }
}

// An update: one byte less than a tail, one more, all that a bank holds, the same after a comparison with the active bank.
#[derive(Clone, Copy, PartialEq, Eq)]
pub enum Kind {
    Below,
    Above,
    Full,
    Compared,
}

// In the order in which they are tried.
pub const KINDS: [Kind; 4] = [Kind::Below, Kind::Above, Kind::Full, Kind::Compared];

// A name that names no leftovers, or no updates.
#[derive(Clone, Copy)]
pub struct Unknown;

// Which leftovers are tried: one, or all.
#[derive(Clone, Copy)]
pub struct Leftovers(pub Option<Leftover>);

// Which updates are tried. The short ones are one byte less than a tail and one more.
#[derive(Clone, Copy)]
pub enum Updates {
    One(Kind),
    Short,
    All,
}

// Of each update: the erase of the header's sector, the header's write and the commit word's.
const HEADER_OPERATIONS: u32 = 3;

const ERASES: u32 = CAPACITY_32 / SECTOR_SIZE_32;

const WRITES: u32 = CAPACITY_32 / TAIL_SIZE_32;

const BELOW_OPERATIONS: u32 = HEADER_OPERATIONS + 1 + 1;

const ABOVE_OPERATIONS: u32 = BELOW_OPERATIONS + 1;

pub const FULL_OPERATIONS: u32 = HEADER_OPERATIONS + ERASES + WRITES;

const BELOW_SIZE: usize = TAIL_SIZE - 1;

const ABOVE_SIZE: usize = TAIL_SIZE + 1;

impl TryFrom<&[u8]> for Leftovers {
    type Error = Unknown;

    fn try_from(name: &[u8]) -> Result<Leftovers, Unknown> {
        match name {
            b"found" => Ok(Leftovers(Some(Leftover::Found))),
            b"erased" => Ok(Leftovers(Some(Leftover::Erased))),
            b"older" => Ok(Leftovers(Some(Leftover::Older))),
            b"half" => Ok(Leftovers(Some(Leftover::Half))),
            b"headed" => Ok(Leftovers(Some(Leftover::Headed))),
            b"random" => Ok(Leftovers(Some(Leftover::Random))),
            b"all" => Ok(Leftovers(None)),
            _ => Err(Unknown),
        }
    }
}

impl TryFrom<&[u8]> for Updates {
    type Error = Unknown;

    fn try_from(name: &[u8]) -> Result<Updates, Unknown> {
        match name {
            b"255" => Ok(Updates::One(Kind::Below)),
            b"257" => Ok(Updates::One(Kind::Above)),
            b"full" => Ok(Updates::One(Kind::Full)),
            b"compared" => Ok(Updates::One(Kind::Compared)),
            b"short" => Ok(Updates::Short),
            b"all" => Ok(Updates::All),
            _ => Err(Unknown),
        }
    }
}

impl Leftovers {
    // Whether a kind is among them.
    pub fn has(self, l: Leftover) -> bool {
        match self.0 {
            Some(x) => x == l,
            None => true,
        }
    }
}

impl Updates {
    // Whether a kind is among them.
    pub fn has(self, k: Kind) -> bool {
        match self {
            Updates::One(x) => x == k,
            Updates::Short => matches!(k, Kind::Below | Kind::Above),
            Updates::All => true,
        }
    }
}

// How many bytes a kind of update has.
pub fn size(k: Kind) -> usize {
    match k {
        Kind::Below => BELOW_SIZE,
        Kind::Above => ABOVE_SIZE,
        _ => CAPACITY,
    }
}

// How many flash operations a kind of update makes.
pub fn operations(k: Kind) -> u32 {
    match k {
        Kind::Below => BELOW_OPERATIONS,
        Kind::Above => ABOVE_OPERATIONS,
        _ => FULL_OPERATIONS,
    }
}

impl fmt::Display for Kind {
    fn fmt<W: fmt::Write>(&self, f: &mut fmt::Formatter<W>) -> fmt::Result {
        let bytes = Grouped(low32(size(*self) as u64));
        match self {
            Kind::Compared => write!(f, "update of {bytes} bytes, compared first"),
            _ => write!(f, "update of {bytes} bytes"),
        }
    }
}
