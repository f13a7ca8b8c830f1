// The lines of an unsafe table, read back. All functions here are inner.
ghost use Rattle.std.specs.Prelude.{◌≡◌, ◌<◌, ◌≤◌, [], length};
ghost use Rattle.steps.specs.Texts.{read_as};
ghost use Rattle.steps.specs.Runs.{ending_in, step_in, first_in, steps_in, run_in, Tells};

use crate::texts::{Found, read_counted, read_number, read_word};

// What stands behind a step's number, as the run word. Inner.
#[tactic(auto, unfolding(crate::specs::Runs::ending_in))]
fn read_ending<'a>(text: &'a [u8], number: usize) -> Option<Found<'a>>
    requires { number < 32768 }
    ensures { read_as result ≡ ending_in number text.now }
{
    read_word(text, b" kept\n", number)
        // Not through `u16::from` of a step, which is no plainer: a word that is read is a plain number here, like a count, and no step is made.
        .or_else(|| read_word(text, b" lost\n", number + 32768))
        .or_else(|| read_word(text, b" receive\n", number))
        .or_else(|| read_word(text, b" quiet\n", number))
}

// The line of a step, as its run word. Inner.
#[tactic(auto, unfolding(crate::specs::Runs::step_in))]
fn read_step<'a>(text: &'a [u8]) -> Option<Found<'a>>
    ensures { read_as result ≡ step_in text.now }
{
    let number = read_number(text)?;
    read_ending(number.rest, number.value)
}

// The first line of an unsafe table, as its count of steps. Inner.
#[tactic(auto, unfolding(crate::specs::Runs::first_in))]
fn read_first<'a>(text: &'a [u8]) -> Option<Found<'a>>
    ensures { read_as result ≡ first_in text.now }
{
    let rows = read_counted(text, b"unsafe rows ")?;
    let steps = read_counted(rows.rest, b" steps ")?;
    read_word(steps.rest, b"\n", steps.value)
}

// The first line that is not one of a run's, counted from 1.
#[derive(Clone, Copy, Debug, PartialEq, Eq)]
pub struct NoRun {
    pub line: usize,
}

// Reads so many steps, which stand behind the first line: so many words in the first places of the buffer. Inner.
#[tactic(auto, using(crate::proofs::RunLaws::run_turns))]
fn read_steps(text: &[u8], steps: usize, words: &mut [u16]) -> Result<usize, NoRun>
    requires { (length text.now ≤ length words.old) × (steps < 65536) }
    ensures { Tells (steps_in steps [] text.now 2) result words.new }
{
    let mut rest = text;
    for i in 0..steps {
        let Some(step) = read_step(rest) else {
            return Err(NoRun { line: i + 2 });
        };
        words[i] = step.value as u16;
        rest = step.rest;
    }
    if !rest.is_empty() {
        return Err(NoRun { line: steps + 2 });
    }
    Ok(steps)
}

// Reads a whole text as the words of a run, which stand in the first places of the buffer, and says how many they are. There is a place in the
// buffer for each byte of the text, so each line's word has one; text and buffer are apart since the caller reads the words there afterwards. Inner.
#[tactic(auto, unfolding(crate::specs::Runs::run_in))]
pub fn read_run(text: &[u8], words: &mut [u16]) -> Result<usize, NoRun>
    requires { length text.now ≤ length words.old }
    ensures { Tells (run_in text.now) result words.new }
{
    let first = read_first(text).ok_or(NoRun { line: 1 })?;
    read_steps(first.rest, first.value, words)
}
