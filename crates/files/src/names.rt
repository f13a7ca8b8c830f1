// Arguments of the program that name files.
ghost use Rattle.std.specs.Prelude.{◌≡◌, ◌≤◌, length, IfOk};

use crate::failing::say_failure;
use std::env::{Env, FillError};
use std::io;
use std::io::ErrorKind;

// The system's number for a name that is too long.
const NAME_TOO_LONG: i32 = 36;

// An argument that names a file: where it is asked for, where failures are said, which argument it is, and what its file is for.
#[derive(Drop)]
pub struct Argument<'a, R, E> {
    pub rt: &'a R,
    pub errors: &'a E,
    pub number: usize,
    pub what: &'a [u8],
}

impl<'a, R, E> Argument<'a, R, E> {
    // The argument of that number. Inner.
    pub fn new(rt: &'a R, errors: &'a E, number: usize, what: &'a [u8]) -> Argument<'a, R, E>
        ensures { (result.number ≡ number) × (result.what.now ≡ what.now) }
    {
        Argument {
            rt,
            errors,
            number,
            what,
        }
    }
}

impl<R, E: Print> Argument<'_, R, E> {
    // Says what failed and why.
    pub(crate) fn say(&self, what: &[u8], error: &io::Error) {
        say_failure(self.errors, what, error);
    }
}

impl<R: Env, E: Print> Argument<'_, R, E> {
    // Copies the name to the start of `path`, and answers that part of it. An argument that can name no file is said, by what its file is for. Inner.
    pub fn name<'p>(&self, path: &'p mut [u8]) -> io::Result<&'p [u8]>
        ensures { IfOk result (λ name. length name.now ≤ length path.old) }
    {
        let n = self
            .rt
            .arg(self.number, path)
            .map_err(no_name)
            .inspect_err(|error| self.say(self.what, error))?;
        Ok(&path[..n])
    }
}

// Why an argument names no file. No `From`: both types are the library's, so that this crate can have no `impl` for them.
fn no_name(why: FillError) -> io::Error {
    match why {
        FillError::NotPresent => io::Error::new(ErrorKind::NotFound, "no file is named"),
        FillError::TooLong => io::Error::from_raw_os_error(NAME_TOO_LONG),
    }
}
