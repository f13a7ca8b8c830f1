// The proving program: it searches the table in the file that its first argument names, with room for 1,024 rows, and writes what it found; of
// a safe table it writes the proof list to the file that its second argument names.
#![tactic(auto)]

mod answers;
mod program;

use crate::program::prove_file;

// The memory of the program: a byte more than the longest table has, so that a longer one shows; 103 work words for each of 1,024 rows; two run
// words for each row; 202 bytes for each row of the list; room for the first line and 14 bytes for each of 2,048 steps.
fn main(rt: HostRuntime) {
    let mut table = [0u8; 36875];
    let mut work = [0u16; 105472];
    let mut run = [0u16; 2048];
    let mut list = [0u8; 206848];
    let mut out = [0u8; 28732];
    prove_file(
        &rt,
        &rt.stderr(),
        &mut table,
        &mut work,
        &mut run,
        &mut list,
        &mut out,
    );
}
