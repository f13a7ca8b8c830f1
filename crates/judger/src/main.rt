// The judging program: it reads a table and a proof list from the files that its arguments name, and writes the judge's answer. It stands
// on nothing that searches.
#![tactic(auto)]

mod answers;
mod program;

use crate::program::judge_files;

// The memory of the program: a byte more than the longest table and the longest list have, so that longer ones show; room for the line.
fn main(rt: HostRuntime) {
    let mut table = [0u8; 36875];
    let mut list = [0u8; 206849];
    let mut out = [0u8; 80];
    judge_files(&rt, &rt.stderr(), &mut table, &mut list, &mut out);
}
