// What is said of a table's bytes and a list's. The output stays a slice of at least 80 bytes: docs/CONTRACTS.md names write_answer, and an array would ask
// more of its callers.
ghost use Rattle.std.specs.Prelude.{◌≡◌, ◌≤◌, length, Ok};
ghost use Rattle.judge.specs.Judging.{answer_of};
ghost use Rattle.wording.specs.Written.{Written};
ghost use Rattle.judger.specs.Output.{line_of, output_of};

use judge::{Judgement, Refused, judge};
use table::Told;
use wording::Line;

// Writes the line of what is said of the rows.
#[tactic(auto, using(crate::proofs::OutputLaws::rooms))]
fn write_judgement(judgement: Judgement, out: &mut [u8]) -> usize
    requires { 80 ≤ length out.old }
    ensures { Written out.old 0 (line_of (answer_of (Ok judgement))) out.new result }
{
    match judgement {
        Judgement::NoStart => Line::NoStart.write(out, 0),
        Judgement::BadRow(row) => Line::BadRow(row).write(out, 0),
        Judgement::NotClosed { row, transition } => {
            Line::NotClosed { row, transition }.write(out, 0)
        }
        Judgement::Accepted => Line::Accepted.write(out, 0),
    }
}

// Writes the line of the judge's answer.
#[tactic(auto, using(crate::proofs::OutputLaws::rooms))]
fn write_line(answer: Result<Judgement, Refused>, out: &mut [u8]) -> usize
    requires { 80 ≤ length out.old }
    ensures { Written out.old 0 (line_of (answer_of answer)) out.new result }
{
    match answer {
        Ok(judgement) => write_judgement(judgement, out),
        Err(refused) => Line::from(Told::from(refused)).write(out, 0),
    }
}

// Writes the whole output for the bytes of a table and a list, and answers how many bytes that is.
#[tactic(auto, using(common::proofs::ChoiceLaws::choices), unfolding(crate::specs::Output::output_of))]
pub fn write_answer(table: &[u8], list: &[u8], out: &mut [u8]) -> usize
    requires { 80 ≤ length out.old }
    ensures { Written out.old 0 (output_of table.now list.now) out.new result }
{
    if 36874 < table.len() {
        return Line::LongTable.write(out, 0);
    }
    if 206848 < list.len() {
        return Line::LongList.write(out, 0);
    }
    write_line(judge(table, list), out)
}
