// What is said of a table's bytes and a text's. The output stays a slice of at least 80 bytes: docs/CONTRACTS.md names write_answer, and an array would ask
// more of its callers.
ghost use Rattle.std.specs.Prelude.{◌≡◌, ◌≤◌, length, Ok};
ghost use Rattle.replay.specs.Replaying.{answer_of};
ghost use Rattle.table.specs.Checking.{check_table};
ghost use Rattle.wording.specs.Written.{Written};
ghost use Rattle.steps.specs.Runs.{run_in};
ghost use Rattle.replayer.specs.Output.{line_of, no_run_text, told_text, output_of};

use replay::{Ending, Refused, replay};
use steps::{NoRun, read_run};
use table::{Told, check_table};
use wording::Line;

// Writes the line of how a run ends.
#[tactic(auto, using(crate::proofs::OutputLaws::rooms))]
fn write_ending(ending: Ending, out: &mut [u8]) -> usize
    requires { 80 ≤ length out.old }
    ensures { Written out.old 0 (line_of (answer_of (Ok ending))) out.new result }
{
    match ending {
        Ending::Stuck(step) => Line::Stuck(step).write(out, 0),
        Ending::Elsewhere(state) => Line::Elsewhere(state).write(out, 0),
        Ending::Bad(steps) => Line::ReachesBad(steps).write(out, 0),
    }
}

// Writes the line of the replay's answer.
#[tactic(auto, using(crate::proofs::OutputLaws::rooms))]
fn write_line(answer: Result<Ending, Refused>, out: &mut [u8]) -> usize
    requires { 80 ≤ length out.old }
    ensures { Written out.old 0 (line_of (answer_of answer)) out.new result }
{
    match answer {
        Ok(ending) => write_ending(ending, out),
        Err(refused) => Line::from(Told::from(refused)).write(out, 0),
    }
}

// Writes what is said where the text is no run.
#[tactic(auto, using(crate::proofs::OutputLaws::rooms))]
fn write_no_run(table: &[u8], line: usize, out: &mut [u8]) -> usize
    requires { 80 ≤ length out.old }
    ensures { Written out.old 0 (no_run_text (check_table table.now) line) out.new result }
{
    match check_table(table) {
        Err(refusal) => Line::from(Told::from(refusal)).write(out, 0),
        Ok(_) => Line::NoRun(line).write(out, 0),
    }
}

// Writes what is said of a table and a text that are not too long.
fn write_told(table: &[u8], text: &[u8], words: &mut [u16], out: &mut [u8]) -> usize
    requires { (length text.now ≤ length words.old) × (80 ≤ length out.old) }
    ensures { Written out.old 0 (told_text table.now (run_in text.now)) out.new result }
{
    match read_run(text, words) {
        Ok(n) => write_line(replay(table, &words[..n]), out),
        Err(NoRun { line }) => write_no_run(table, line, out),
    }
}

// Writes the whole output for the bytes of a table and a text, and answers how many bytes that is.
#[tactic(auto, using(common::proofs::ChoiceLaws::choices), unfolding(crate::specs::Output::output_of))]
pub fn write_answer(table: &[u8], text: &[u8], words: &mut [u16], out: &mut [u8]) -> usize
    requires { (28732 ≤ length words.old) × (80 ≤ length out.old) }
    ensures { Written out.old 0 (output_of table.now text.now) out.new result }
{
    if 36874 < table.len() {
        return Line::LongTable.write(out, 0);
    }
    if 28732 < text.len() {
        return Line::LongRun.write(out, 0);
    }
    write_told(table, text, words, out)
}
