// From inputs to output. What is said of the inputs is decided and written by `write_answer` alone. The output is a slice as there.
ghost use Rattle.std.specs.Prelude.{◌≤◌, length};

use crate::answers::write_answer;
use files::{Argument, read_standard, write_output};
use std::env::Env;
use std::io;
use std::io::Read;
use std::rt::Files;

// Reads the table, then the text, and writes what is said of both. Where one cannot be read nothing is said, since the bytes may be only
// part of it.
fn try_replay<R: Env + Files + Print, E: Print, I: Read>(
    rt: &R,
    errors: &E,
    reader: &mut I,
    table: &mut [u8],
    text: &mut [u8],
    words: &mut [u16],
    out: &mut [u8],
) -> io::Result<()>
    requires { (28732 ≤ length words.old) × (80 ≤ length out.old) }
{
    let n = Argument::new(rt, errors, 1, b"table").read(table)?;
    let m = read_standard(reader, errors, text)?;
    let size = write_answer(&table[..n], &text[..m], words, out);
    write_output(rt, errors, &out[..size]);
    Ok(())
}

// The same as a call that cannot fail, as it could not before its parts could: what failed is said by then, and the status says no more.
pub fn replay_input<R: Env + Files + Print, E: Print, I: Read>(
    rt: &R,
    errors: &E,
    reader: &mut I,
    table: &mut [u8],
    text: &mut [u8],
    words: &mut [u16],
    out: &mut [u8],
)
    requires { (28732 ≤ length words.old) × (80 ≤ length out.old) }
{
    let _ = try_replay(rt, errors, reader, table, text, words, out);
}
