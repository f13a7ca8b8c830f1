// Texts and files written whole.
use crate::failing::say_failure;
use crate::names::Argument;
use crate::system::{create, rename, unlink};
use std::env::Env;
use std::fs::OpenFile;
use std::io;
use std::io::Write;
use std::rt::Files;
use wording::texts::write_bytes;

// Writes to standard output, or says why it cannot. Inner.
pub fn write_output<R: Print, E: Print>(rt: &R, errors: &E, text: &[u8]) {
    if let Err(error) = rt.write_all(text) {
        say_failure(errors, b"standard output", &error);
    }
}

// Writes all bytes to the file, and closes it. What a late write would tell where the file is closed is asked for before, since a file that is
// let go says nothing.
fn write_whole<F: Write + OpenFile + Drop>(mut file: F, bytes: &[u8]) -> io::Result<()> {
    file.write_all(bytes)?;
    file.sync_all()
}

impl<R: Env + Files, E: Print> Argument<'_, R, E> {
    // Writes all bytes to a new file. One that cannot be written whole is removed again, once that is said.
    fn write_new(&self, path: &[u8], bytes: &[u8]) -> io::Result<()> {
        let file = create(self.rt, path).inspect_err(|error| self.say(path, error))?;
        write_whole(file, bytes).inspect_err(|error| {
            self.say(path, error);
            let _ = unlink(self.rt, path);
        })
    }

    // Writes a file by way of a new one beside it, which takes its name once it is whole. What fails is said, with the name that it failed at.
    fn write_beside(&self, path: &[u8], part: &[u8], bytes: &[u8]) -> io::Result<()> {
        self.write_new(part, bytes)?;
        rename(self.rt, part, path).inspect_err(|error| {
            self.say(path, error);
            let _ = unlink(self.rt, part);
        })
    }

    // Writes the file that it names whole, or says why it cannot and leaves what stands under the name as it is. The new file has ".part" behind its
    // name until it is whole. Inner.
    pub fn write(&self, bytes: &[u8]) -> io::Result<()> {
        let mut path = [0u8; 4096];
        let name = self.name(&mut path)?;
        let mut part = [0u8; 4101];
        let end = write_bytes(&mut part, 0, name);
        let size = write_bytes(&mut part, end, b".part");
        self.write_beside(name, &part[..size], bytes)
    }
}
