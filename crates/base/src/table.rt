// A timetable has eight tables, numbered from 0.
pub const TABLES: usize = 8;

pub const LAST_TABLE: u32 = 7;
