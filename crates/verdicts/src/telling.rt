// What is said of a verdict, and of a refusal.
ghost use Rattle.std.specs.Prelude.{◌+◌, ◌*◌, ◌≤◌, length, Ok};
ghost use Rattle.table.specs.Systems.{system_of};
ghost use Rattle.wording.specs.Lines.{refused_line};
ghost use Rattle.wording.specs.Steps.{answer_text};
ghost use Rattle.wording.specs.Written.{Written};
ghost use Rattle.verdicts.specs.Said.{number_in, place_in, said_by, StepsFit};

use search::searches::{Refused, Verdict};
use table::{Table, Told};
use wording::Line;
use wording::steps::unsafe_text;

// Writes the line of a refusal, without its input. Inner.
#[tactic(auto, using(crate::proofs::SaidLaws::first_rooms))]
pub fn write_refused(out: &mut [u8], refused: Refused) -> usize
    requires { 60 ≤ length out.old }
    ensures { Written out.old 0 (refused_line (number_in refused) (place_in refused)) out.new result }
{
    let Told { number, place, .. } = Told::from(refused);
    Line::Refused { number, place }.write(out, 0)
}

// Writes all lines of what was found of a table. The run of an unsafe table stands in the first words of `run`. Inner.
#[tactic(auto, using(crate::proofs::SaidLaws::first_rooms))]
fn write_found(out: &mut [u8], table: &Table, verdict: Verdict, run: &[u16]) -> usize
    requires { StepsFit (Ok verdict) run.now × (60 + 14 * length run.now ≤ length out.old) }
    ensures { Written out.old 0 (answer_text (system_of table.now.bytes.now) (said_by (Ok verdict) run.now)) out.new result }
{
    match verdict {
        Verdict::Safe(rows) => Line::Safe(rows).write(out, 0),
        Verdict::Unsafe { rows, steps } => unsafe_text(out, 0, table, rows, &run[..steps]),
        Verdict::RowsFull {
            row,
            transition,
            ..
        } => Line::RowsFull { row, transition }.write(out, 0),
        Verdict::AtomsFull {
            row,
            transition,
            ..
        } => Line::AtomsFull { row, transition }.write(out, 0),
    }
}

// Writes all lines of what the search answers: what it found, or its refusal. Inner.
pub fn write_verdict(
    out: &mut [u8],
    table: &Table,
    verdict: Result<Verdict, Refused>,
    run: &[u16],
) -> usize
    requires { StepsFit verdict run.now × (60 + 14 * length run.now ≤ length out.old) }
    ensures { Written out.old 0 (answer_text (system_of table.now.bytes.now) (said_by verdict run.now)) out.new result }
{
    match verdict {
        Ok(found) => write_found(out, table, found, run),
        Err(refused) => write_refused(out, refused),
    }
}
