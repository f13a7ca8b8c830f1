// What is made of a table's bytes. The output stays a slice of at least 28,732 bytes: docs/CONTRACTS.md names write_answer, and an array would ask more of
// its callers. Work table, run buffer, list and output are lent apart for the same reason: a struct would own them or lend all four for as long.
ghost use Rattle.std.specs.Prelude.{◌≡◌, ◌+◌, ◌≤◌, length};
ghost use Rattle.writer.specs.Answers.{answer};
ghost use Rattle.writer.specs.Writing.{written, bytes_of};
ghost use Rattle.prover.specs.Output.{listed, found, made, Tells, Makes};

use search::searches::{Verdict, search_good};
use table::{Table, Told};
use verdicts::{write_refused, write_verdict};
use wording::Line;
use writer::{Refused, write_list};

// What is to be written: a text of so many bytes, and a list of so many bytes where there is one. Sizes and no slices: a slice lent from `out` or `list`
// would end what is promised of what they hold afterwards.
#[derive(Clone, Copy, Debug, PartialEq, Eq)]
pub struct Output {
    pub text: usize,
    pub list: Option<usize>,
}

// Writes what is said of the list, from a place on.
#[tactic(auto, using(crate::proofs::OutputLaws::rooms))]
fn write_listed(listed: Result<usize, Refused>, out: &mut [u8], at: usize) -> Output
    requires { at + 80 ≤ length out.old }
    ensures { Tells (answer listed) out.old at out.new result }
{
    match listed {
        Ok(bytes) => {
            let text = Line::ListBytes(bytes).write(out, at);
            Output {
                text,
                list: Some(bytes),
            }
        }
        Err(refused) => {
            let text = Line::from(Told::from(refused)).write(out, at);
            Output { text, list: None }
        }
    }
}

// Makes text and list for a safe table, of the rows that the search made.
#[tactic(auto, using(crate::proofs::OutputLaws::rooms))]
fn write_safe(
    t: &[u8],
    work: &[u16],
    rows: usize,
    list: &mut [u8; 206848],
    out: &mut [u8],
) -> Output
    requires { 28732 ≤ length out.old }
    ensures { Makes (listed (written t.now work.now rows 206848) (bytes_of t.now work.now rows) rows list.old) out.old out.new list.new result }
{
    let listed = write_list(t, work, rows, list);
    let next = Line::Safe(rows).write(out, 0);
    write_listed(listed, out, next)
}

// Makes text and list for a good table.
fn write_good(
    table: &Table,
    work: &mut [u16; 105472],
    run: &mut [u16; 2048],
    list: &mut [u8; 206848],
    out: &mut [u8],
) -> Output
    requires { 28732 ≤ length out.old }
    ensures { Makes (found table.now.bytes.now work.old list.old) out.old out.new list.new result }
{
    let verdict = search_good(table, work, run);
    if let Ok(Verdict::Safe(rows)) = verdict {
        return write_safe(table.bytes, work, rows, list, out);
    }
    let text = write_verdict(out, table, verdict, run);
    Output { text, list: None }
}

// Makes text and list for the bytes of a table.
#[tactic(auto, using(common::proofs::ChoiceLaws::choices), unfolding(crate::specs::Output::made, crate::specs::Output::found, crate::specs::Output::searched, search::specs::Searching::search_of))]
pub fn write_answer(
    t: &[u8],
    work: &mut [u16; 105472],
    run: &mut [u16; 2048],
    list: &mut [u8; 206848],
    out: &mut [u8],
) -> Output
    requires { 28732 ≤ length out.old }
    ensures { Makes (made t.now work.old list.old) out.old out.new list.new result }
{
    if 36874 < t.len() {
        let text = Line::LongTable.write(out, 0);
        return Output { text, list: None };
    }
    match Table::check(t) {
        Ok(table) => write_good(&table, work, run, list, out),
        Err(refusal) => {
            let text = write_refused(out, refusal.into());
            Output { text, list: None }
        }
    }
}
