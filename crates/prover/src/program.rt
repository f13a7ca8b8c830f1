// From input to output. What is said of the table, and the list, are decided and written to memory by `write_answer` alone. The output is a slice as there.
ghost use Rattle.std.specs.Prelude.{◌≡◌, ◌≤◌, length};
ghost use Rattle.prover.specs.Output.{Inside};

use crate::answers::{Output, write_answer};
use files::{Argument, write_output};
use std::env::Env;
use std::io;
use std::rt::Files;

// Writes the list to its file, where there is one, and then the text. A list that cannot be written is not told as written.
fn write_made<R: Env + Files + Print, E: Print>(
    list_file: &Argument<'_, R, E>,
    output: Output,
    list: &[u8],
    out: &[u8],
) -> io::Result<()>
    requires { Inside output list.now out.now }
{
    if let Some(bytes) = output.list {
        list_file.write(&list[..bytes])?;
    }
    write_output(list_file.rt, list_file.errors, &out[..output.text]);
    Ok(())
}

// Reads the table and writes what is made of it, where the list has a name. Where the table cannot be read nothing is said of it, since the bytes
// may be only part of it.
#[tactic(auto, using(crate::proofs::OutputLaws::inside))]
fn try_prove<R: Env + Files + Print, E: Print>(
    rt: &R,
    errors: &E,
    table: &mut [u8],
    work: &mut [u16; 105472],
    run: &mut [u16; 2048],
    list: &mut [u8; 206848],
    out: &mut [u8],
) -> io::Result<()>
    requires { 28732 ≤ length out.old }
{
    let n = Argument::new(rt, errors, 1, b"table").read(table)?;
    let list_file = Argument::new(rt, errors, 2, b"list");
    list_file.name(&mut [0u8; 4096])?;
    let output = write_answer(&table[..n], work, run, list, out);
    write_made(&list_file, output, list, out)
}

// The same as a call that cannot fail, as it could not before its parts could: what failed is said by then, and the status says no more.
pub fn prove_file<R: Env + Files + Print, E: Print>(
    rt: &R,
    errors: &E,
    table: &mut [u8],
    work: &mut [u16; 105472],
    run: &mut [u16; 2048],
    list: &mut [u8; 206848],
    out: &mut [u8],
)
    requires { 28732 ≤ length out.old }
{
    let _ = try_prove(rt, errors, table, work, run, list, out);
}
