// The lines of a run's steps. All functions here are inner.
ghost use Rattle.std.specs.Prelude.{◌≡◌, ◌+◌, ◌*◌, ◌≤◌, length};
ghost use Rattle.std.proofs.Math.ListN.{get_elem?};
ghost use Rattle.meaning.specs.Systems.{System};
ghost use Rattle.table.specs.Transitions.{operation_of};
ghost use Rattle.table.specs.Systems.{system_of};
ghost use Rattle.wording.specs.Steps.{happened, happened_to, step_line, run_lines, unsafe_text};
ghost use Rattle.wording.specs.Written.{Written};

use crate::lines::Line;
use crate::texts::{write_bytes, write_number};
use playing::Step;
use table::{Operation, Table};

// What became of an operation's message, `gone` where it is marked lost: at most 8 bytes. Inner.
#[tactic(auto, unfolding(crate::specs::Steps::happened))]
fn happened(gone: bool, operation: Operation) -> &'static [u8]
    ensures { result.now ≡ happened gone (operation_of operation) }
{
    match operation {
        Operation::Quiet => b" quiet",
        Operation::Receive { .. } => b" receive",
        Operation::Send { .. } if gone => b" lost",
        Operation::Send { .. } => b" kept",
    }
}

// Writes the same of a step's transition; nothing of one that is not there. Inner.
#[tactic(auto, using(crate::proofs::StepLaws::step_lengths))]
fn write_move(out: &mut [u8], at: usize, table: &Table, step: Step) -> usize
    requires { at + 8 ≤ length out.old }
    ensures { Written out.old at (happened_to step.lost (get_elem? (system_of table.now.bytes.now).moves step.transition)) out.new result }
{
    if step.transition < table.shape.transitions {
        let operation = table.transition(step.transition).operation;
        return write_bytes(out, at, happened(step.lost, operation));
    }
    at
}

// Writes the line of a step: at most 14 bytes. Inner.
#[tactic(auto, using(crate::proofs::StepLaws::step_lengths))]
pub fn step_line(out: &mut [u8], at: usize, table: &Table, word: u16) -> usize
    requires { at + 14 ≤ length out.old }
    ensures { Written out.old at (step_line (system_of table.now.bytes.now) word) out.new result }
{
    let step = Step::from(word);
    let next = write_number(out, at, step.transition);
    let end = write_move(out, next, table, step);
    write_bytes(out, end, b"\n")
}

// Writes a line for each word of a run. Inner.
pub fn run_lines(out: &mut [u8], at: usize, table: &Table, run: &[u16]) -> usize
    requires { at + 14 * length run.now ≤ length out.old }
    ensures { Written out.old at (run_lines (system_of table.now.bytes.now) run.now) out.new result }
{
    let mut next = at;
    for word in run {
        next = step_line(out, next, table, *word);
    }
    next
}

// Writes all that is said of an unsafe table: its first line, of at most 60 bytes, and a line for each word of the run. Inner.
#[tactic(auto, using(crate::proofs::LineLaws::line_lengths))]
pub fn unsafe_text(out: &mut [u8], at: usize, table: &Table, rows: usize, run: &[u16]) -> usize
    requires { at + 60 + 14 * length run.now ≤ length out.old }
    ensures { Written out.old at (unsafe_text (system_of table.now.bytes.now) rows run.now) out.new result }
{
    let steps = run.len();
    let next = Line::Unsafe { rows, steps }.write(out, at);
    run_lines(out, next, table, run)
}
