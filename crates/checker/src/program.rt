// From input to output. What is said of the input is decided and written by `write_answer` alone.
ghost use Rattle.std.specs.Prelude.{◌≡◌, length};

use crate::answers::write_answer;
use input::read_input;
use std::io::Read;

// Writes to standard output, or says that it cannot, in its own words: the other programs' function tells the reason too.
fn write_output<R: Print + Eprint>(rt: &R, text: &[u8]) {
    if rt.write_all(text).is_ok() {
        return;
    }
    let _ = rt.eprintln("the output cannot be written");
}

// Reads the input into the first buffer, and writes what is said of it by way of the last. Where a read fails nothing is said of the
// table, since the bytes may be only part of it.
pub fn check_input<R: Print + Eprint, I: Read>(
    rt: &R,
    reader: &mut I,
    table: &mut [u8],
    work: &mut [u16; 26368],
    run: &mut [u16; 512],
    out: &mut [u8; 8192],
) {
    match read_input(reader, table) {
        Ok(n) => {
            let size = write_answer(&table[..n], work, run, out);
            write_output(rt, &out[..size]);
        }
        Err(_) => {
            let _ = rt.eprintln("the input cannot be read");
        }
    }
}
