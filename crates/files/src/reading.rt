// A file that an argument names, and standard input, read to their ends.
ghost use Rattle.std.specs.Prelude.{length, IfOk};
ghost use Rattle.input.specs.Reading.{Between};

use crate::failing::say_failure;
use crate::names::Argument;
use crate::system::open_read;
use input::read_input;
use std::env::Env;
use std::io;
use std::io::Read;
use std::rt::Files;

// Reads the file with that name into the buffer. A longer one fills it.
fn read_file<R: Files>(rt: &R, path: &[u8], buffer: &mut [u8]) -> io::Result<usize>
    ensures { IfOk result (Between 0 (length buffer.old)) }
{
    let mut file = open_read(rt, path)?;
    read_input(&mut file, buffer)
}

impl<R: Env + Files, E: Print> Argument<'_, R, E> {
    // Reads the file that it names, or says why it cannot. Inner.
    pub fn read(&self, buffer: &mut [u8]) -> io::Result<usize>
        ensures { IfOk result (Between 0 (length buffer.old)) }
    {
        let mut path = [0u8; 4096];
        let name = self.name(&mut path)?;
        read_file(self.rt, name, buffer).inspect_err(|error| self.say(name, error))
    }
}

// Reads standard input, or says why it cannot. Inner.
pub fn read_standard<I: Read, E: Print>(
    reader: &mut I,
    errors: &E,
    buffer: &mut [u8],
) -> io::Result<usize>
    ensures { IfOk result (Between 0 (length buffer.old)) }
{
    read_input(reader, buffer).inspect_err(|error| say_failure(errors, b"standard input", error))
}
