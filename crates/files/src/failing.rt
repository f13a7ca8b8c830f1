// What failed and why, said in one line.
use std::io;
use std::io::{Cursor, Write};

// Writes what failed, a colon and the error's text. A line that cannot be written is lost.
pub(crate) fn say_failure<E: Print>(errors: &E, what: &[u8], error: &io::Error) {
    let _ = errors.write_all(what);
    let _ = errors.write_all(b": ");
    write_reason(errors, error);
    let _ = errors.write_all(b"\n");
}

// Writes the error's text. Of an error of the system that is its text alone, without its number.
fn write_reason<E: Print>(errors: &E, error: &io::Error) {
    let mut room = [0u8; 320];
    let mut cursor = Cursor::new(&mut room[..]);
    let _ = write!(cursor, "{error}");
    let end = (cursor.position() as usize).min(320);
    match str::from_utf8(&room[..end]) {
        Ok(text) => {
            let _ = errors.write_all(without_number(text).as_bytes());
        }
        Err(_) => {
            let _ = errors.write_all(&room[..end]);
        }
    }
}

// The text before the number of a system's error.
fn without_number(text: &str) -> &str {
    match text.rsplit_once(" (os error ") {
        Some((reason, _)) => reason,
        None => text,
    }
}
