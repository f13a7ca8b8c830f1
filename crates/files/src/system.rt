// The system's calls at a name's bytes. The library takes names that are UTF-8, so that any other is refused here.
use std::fs::{File, OpenOptions};
use std::io::ErrorKind;
use std::rt::Files;
use std::{fs, io};

pub(crate) fn open_read<R: Files>(rt: &R, path: &[u8]) -> io::Result<R::File> {
    File::open(rt, name_text(path)?)
}

// Makes a file that is open for writing. Fails where the name is taken.
pub(crate) fn create<R: Files>(rt: &R, path: &[u8]) -> io::Result<R::File> {
    let name = name_text(path)?;
    OpenOptions::new()
        .write(true)
        .create_new(true)
        .open(rt, name)
}

pub(crate) fn rename<R: Files>(rt: &R, from: &[u8], to: &[u8]) -> io::Result<()> {
    fs::rename(rt, name_text(from)?, name_text(to)?)
}

pub(crate) fn unlink<R: Files>(rt: &R, path: &[u8]) -> io::Result<()> {
    fs::remove_file(rt, name_text(path)?)
}

fn name_text(path: &[u8]) -> io::Result<&str> {
    str::from_utf8(path).map_err(|_| io::Error::new(
        ErrorKind::InvalidFilename,
        "the name is not UTF-8",
    ))
}
