// From inputs to output. What is said of the inputs is decided and written by `write_answer` alone. The output is a slice as there.
ghost use Rattle.std.specs.Prelude.{◌≤◌, length};

use crate::answers::write_answer;
use files::{Argument, write_output};
use std::env::Env;
use std::io;
use std::rt::Files;

// Reads the table, then the list, and writes what is said of both. Where one cannot be read nothing is said, since the bytes may be only
// part of it.
fn try_judge<R: Env + Files + Print, E: Print>(
    rt: &R,
    errors: &E,
    table: &mut [u8],
    list: &mut [u8],
    out: &mut [u8],
) -> io::Result<()>
    requires { 80 ≤ length out.old }
{
    let n = Argument::new(rt, errors, 1, b"table").read(table)?;
    let m = Argument::new(rt, errors, 2, b"list").read(list)?;
    let size = write_answer(&table[..n], &list[..m], out);
    write_output(rt, errors, &out[..size]);
    Ok(())
}

// The same as a call that cannot fail, as it could not before its parts could: what failed is said by then, and the status says no more.
pub fn judge_files<R: Env + Files + Print, E: Print>(
    rt: &R,
    errors: &E,
    table: &mut [u8],
    list: &mut [u8],
    out: &mut [u8],
)
    requires { 80 ≤ length out.old }
{
    let _ = try_judge(rt, errors, table, list, out);
}
