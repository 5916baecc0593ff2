// A file that an argument names, read whole. What the system delivers lies outside the contracts.
ghost use Rattle.std.specs.Prelude.{◌≤◌, length, IfOk, IfSome};

use crate::complaint::{SystemWords, complain};
use std::env::FillError;
use std::fmt::{Display, Formatter};
use std::io::{Error, Read};
use std::rt::{Env, Files};
use std::{fmt, fs, str};

// The most bytes of a file.
pub const MOST_BYTES: usize = 3500000;

// Why a file is not read.
#[derive(Clone, Copy)]
enum Unread {
    NoSuchOption,
    NotUtf8,
    TooLong,
    Failed(Error),
}

impl From<Error> for Unread {
    fn from(error: Error) -> Unread {
        Unread::Failed(error)
    }
}

impl Display for Unread {
    fn fmt<W: fmt::Write>(&self, f: &mut Formatter<W>) -> fmt::Result {
        match self {
            Unread::NoSuchOption => f.write_str("there is no such option; --help says more"),
            Unread::NotUtf8 => f.write_str("its name is not UTF-8"),
            Unread::TooLong => write!(f, "it has more than {MOST_BYTES} bytes"),
            Unread::Failed(error) => write!(f, "{}", SystemWords(*error)),
        }
    }
}

// All bytes up to the end of the file. Where no room is left, it has more than it may have.
fn read_all<'s, F: Read>(file: &mut F, space: &'s mut [u8]) -> Result<&'s [u8], Unread>
    ensures { IfOk result (λ s. length s.now ≤ length space.old) }
{
    let mut done: usize = 0;
    while done < space.len() {
        match file.read(&mut space[done..])? {
            0 => return Ok(&space[..done]),
            more => done += more,
        }
    }
    Err(Unread::TooLong)
}

// What begins with - is an option and no file; a file of such a name is ./-name. std opens a file by a name in UTF-8 alone.
fn read_file<'s, R: Files>(rt: &R, path: &[u8], space: &'s mut [u8]) -> Result<&'s [u8], Unread>
    ensures { IfOk result (λ s. length s.now ≤ length space.old) }
{
    if path.starts_with(b"-") {
        return Err(Unread::NoSuchOption);
    }
    let Ok(name) = str::from_utf8(path) else {
        return Err(Unread::NotUtf8);
    };
    let mut file = fs::open(rt, name)?;
    read_all(&mut file, space)
}

// The bytes of the file that argument i names, or none where standard error says why it is not read.
pub fn read_argument(rt: HostRuntime, i: usize, space: &mut [u8]) -> Option<&[u8]>
    ensures { IfSome result (λ s. length s.now ≤ length space.old) }
{
    let mut path = [0u8; 4096];
    let n = match rt.arg(i, &mut path) {
        Ok(n) => n,
        Err(FillError::TooLong) => {
            complain(rt, b"an argument", "File name too long");
            return None;
        }
        Err(FillError::NotPresent) => {
            complain(rt, b"an argument", "Invalid argument");
            return None;
        }
    };
    match read_file(&rt, &path[..n], space) {
        Ok(bytes) => Some(bytes),
        Err(unread) => {
            complain(rt, &path[..n], unread);
            None
        }
    }
}
