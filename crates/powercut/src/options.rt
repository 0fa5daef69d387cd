// The arguments.
use crate::kinds::{Leftovers, Updates};
use crate::torn::Cuts;
use program::arguments::{count, follow, text};
use program::options;
use program::options::{ALONE, End, Images, WITH_ONE};
use std::num::wrapping_add_usize;
use std::rt::Env;

// What is wrong with an option.
const NO_LEFTOVER: End = End::Wrong(
    "--leftover needs found, erased, older, half, headed, random or all",
);

const NO_UPDATE: End = End::Wrong("--update needs 255, 257, full, compared, short or all");

const NO_CUTS: End = End::Wrong("--torn needs some, all or none");

const NO_PICTURE: End = End::Wrong("--svg needs a file's name");

// What the arguments ask for. The picture is the index of an argument.
#[derive(Clone, Copy)]
pub struct Options {
    pub images: Images,
    pub picture: Option<usize>,
    pub leftovers: Leftovers,
    pub updates: Updates,
    pub cuts: Cuts,
    pub progress: bool,
}

const NONE: Options = Options {
    images: options::NONE,
    picture: None,
    leftovers: Leftovers(None),
    updates: Updates::Short,
    cuts: Cuts::Some,
    progress: false,
};

impl Options {
    // Takes the option at an index, of `count` arguments; gives how many it has.
    fn take<R: Env>(
        &mut self,
        rt: &R,
        index: usize,
        count: usize,
        buffer: &mut [u8],
    ) -> Result<usize, End> {
        if let Some(n) = self.images.take(rt, index, buffer)? {
            return Ok(n);
        }
        let next = wrapping_add_usize(index, 1);
        match text(rt, index, buffer) {
            b"--leftover" => {
                let name = text(rt, next, buffer);
                self.leftovers = Leftovers::try_from(name).map_err(|_| NO_LEFTOVER)?;
            }
            b"--update" => {
                let name = text(rt, next, buffer);
                self.updates = Updates::try_from(name).map_err(|_| NO_UPDATE)?;
            }
            b"--torn" => {
                let name = text(rt, next, buffer);
                self.cuts = Cuts::try_from(name).map_err(|_| NO_CUTS)?;
            }
            b"--svg" => {
                if !follow(index, 1, count) {
                    return Err(NO_PICTURE);
                }
                self.picture = Some(next);
            }
            b"--progress" => {
                self.progress = true;
                return Ok(ALONE);
            }
            _ => return Err(End::NoOption(index)),
        }
        Ok(WITH_ONE)
    }
}

// Reads all arguments. Each turn takes one or more of them.
pub fn read<R: Env>(rt: &R, buffer: &mut [u8]) -> Result<Options, End> {
    let mut o = NONE;
    let count = count(rt);
    let mut index = 1;
    for _ in 0..count {
        if count <= index {
            break;
        }
        index = wrapping_add_usize(index, o.take(rt, index, count, buffer)?);
    }
    o.images.finish()?;
    Ok(o)
}
