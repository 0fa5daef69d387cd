// The refusals: 1 to 14 are document 01's; 15 to 23 are document 02's, and no call gives them yet. A refusal has one number in all calls,
// its discriminant.
#![tactic(auto)]

ghost use Rattle.std.specs.Prelude.{◌≡◌};
ghost use Rattle.refusal.specs.Refusal.{number_of};

#[derive(Clone, Copy, PartialEq, Eq)]
pub enum Refusal {
    Region = 1,
    Argument = 2,
    Mark = 3,
    Seal = 4,
    Span = 5,
    Source = 6,
    Data = 7,
    Identity = 8,
    Small = 9,
    Full = 10,
    Turn = 11,
    Obsolete = 12,
    Unfit = 13,
    Row = 14,
    Key = 15,
    Future = 16,
    Line = 17,
    Rights = 18,
    LastKeeper = 19,
    List = 20,
    Absent = 21,
    Layout = 22,
    Table = 23,
}

// A refusal's number, in a byte. It and `number_u32` stay two functions, since wrong programs of each are kept (must-fail).
pub fn number(r: Refusal) -> u8
    ensures { result ≡ number_of r }
{
    r as u8
}

// The same number in 32 bits, as C gets it.
pub fn number_u32(r: Refusal) -> u32
    ensures { result ≡ number_of r }
{
    r as u32
}
