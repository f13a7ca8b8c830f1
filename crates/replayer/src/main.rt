// The replaying program: it reads a run, in the lines of the checker, from standard input, plays it on the table in the file that its argument
// names, and writes what it came to.
#![tactic(auto)]

mod answers;
mod program;

use crate::program::replay_input;

// The memory of the program: a byte more than the longest table and the longest text have, so that longer ones show; a word for each byte of a
// text; room for the line.
fn main(rt: HostRuntime) {
    let mut table = [0u8; 36875];
    let mut text = [0u8; 28733];
    let mut words = [0u16; 28733];
    let mut out = [0u8; 80];
    replay_input(
        &rt,
        &rt.stderr(),
        &mut rt.stdin(),
        &mut table,
        &mut text,
        &mut words,
        &mut out,
    );
}
