// The arguments that the programs have in common: they say which image is read.
ghost use Rattle.std.specs.Prelude.{◌<◌, ◌≤◌, ◌≡◌, ◌↔◌, IfOk, IfSome, IsTrue, None};

use crate::arguments::text;
use crate::image::LARGEST_DUMP;
use crate::text::digits;
use std::num::wrapping_add_usize;
use std::rt::Env;

// How many arguments an option has, itself included.
pub const ALONE: usize = 1;

pub const WITH_ONE: usize = 2;

// What ends the reading of the arguments: the help is asked for, there is no such option as the argument at an index, no image is named, or what
// is wrong, in words.
#[derive(Clone, Copy)]
pub enum End {
    Help,
    NoOption(usize),
    NoImage,
    Wrong(&'static str),
}

const ONE_IMAGE: End = End::Wrong("one image at a time");

const NO_OFFSET: End = End::Wrong("--offset needs a number of bytes, at most 16777216");

// Which image is read: the argument at an index or the sample, and where its region starts, if that is given. After `--` every argument is
// an image.
#[derive(Clone, Copy)]
pub struct Images {
    pub only: bool,
    pub index: Option<usize>,
    pub sample: bool,
    pub place: Option<usize>,
}

// No image yet.
pub const NONE: Images = Images {
    only: false,
    index: None,
    sample: false,
    place: None,
};

// Whether an argument is no option.
fn is_image(s: &[u8]) -> bool {
    match s {
        [] => false,
        b"-" => true,
        [b'-', ..] => false,
        _ => true,
    }
}

// The offset that an argument says.
fn offset_of(s: &[u8]) -> Option<usize> {
    let n = digits(s)?;
    if n <= LARGEST_DUMP as u64 {
        Some(n as usize)
    } else {
        None
    }
}

impl Images {
    // Takes the argument at an index if it says which image is read, and gives how many arguments that is; none if it is another option.
    pub fn take<R: Env>(
        &mut self,
        rt: &R,
        index: usize,
        buffer: &mut [u8],
    ) -> Result<Option<usize>, End>
        ensures { IfOk result (λ taken. IfSome taken (λ n. (0 < n) × (n ≤ 2))) }
    {
        let s = text(rt, index, buffer);
        if is_image(s) | (self.only & !s.is_empty()) {
            if self.index.is_some() {
                return Err(ONE_IMAGE);
            }
            self.index = Some(index);
            return Ok(Some(ALONE));
        }
        match s {
            b"" => Err(End::NoImage),
            b"--help" | b"-h" => Err(End::Help),
            b"--" => {
                self.only = true;
                Ok(Some(ALONE))
            }
            b"--sample" => {
                self.sample = true;
                Ok(Some(ALONE))
            }
            b"--offset" => {
                let n = offset_of(text(rt, wrapping_add_usize(index, 1), buffer));
                self.place = Some(n.ok_or(NO_OFFSET)?);
                Ok(Some(WITH_ONE))
            }
            _ => Ok(None),
        }
    }

    // An image or the sample must be asked for, and not both.
    pub fn finish(&self) -> Result<(), End>
        ensures { IfOk result (λ _. IsTrue self.now.sample ↔ (self.now.index ≡ None)) }
    {
        match (self.index, self.sample) {
            (None, false) => Err(End::NoImage),
            (Some(_), true) => Err(ONE_IMAGE),
            _ => Ok(()),
        }
    }
}
