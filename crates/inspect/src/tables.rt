// The tables by number and by name.
use base::table::TABLES;

const NAMES: [&str; TABLES] = [
    "routes",
    "stops",
    "trips",
    "stop_times",
    "calendar",
    "calendar_dates",
    "feed_info",
    "transfers",
];

// A table's name.
pub fn name(t: u32) -> &'static str {
    NAMES.get(t as usize).copied().unwrap_or("")
}

// The number of the table that has a name.
pub fn number(name: &[u8]) -> Option<u32> {
    (0..TABLES as u32).find(|t| self::name(*t).as_bytes() == name)
}

// Whether a table's bit is set.
pub fn is_set(bits: u32, t: u32) -> bool {
    (t < u32::BITS) && (bits >> t & 1 == 1)
}
