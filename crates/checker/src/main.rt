// The checking program: it reads a table from standard input, searches with room for 256 rows, and writes what it found.
#![tactic(auto)]

mod answers;
mod program;

use crate::program::check_input;

// The memory of the program: a byte more than the longest table has, so that a longer input shows; 103 work words for each of 256 rows;
// two run words for each row; room for the first line and 14 bytes for each of 512 steps.
fn main(rt: HostRuntime) {
    let mut table = [0u8; 36875];
    let mut work = [0u16; 26368];
    let mut run = [0u16; 512];
    let mut out = [0u8; 8192];
    check_input(
        &rt,
        &mut rt.stdin(),
        &mut table,
        &mut work,
        &mut run,
        &mut out,
    );
}
