// The one buffer that a trial writes to: a copy of the region on which the update is begun again, the marks of the cuts, and the bytes that an
// operation changes, from before it and from after it.
use region::{REGION_SIZE, SECTOR_SIZE};

// Where each part starts.
pub const MARKS: usize = REGION_SIZE;

pub const MARKS_SIZE: usize = SECTOR_SIZE;

pub const BEFORE: usize = MARKS + MARKS_SIZE;

pub const AFTER: usize = BEFORE + SECTOR_SIZE;

pub const SCRATCH_SIZE: usize = AFTER + SECTOR_SIZE;

pub fn buffer() -> [u8; SCRATCH_SIZE] {
    [0; SCRATCH_SIZE]
}
