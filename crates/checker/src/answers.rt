// What is said of the input's bytes. Work table, run buffer and output are lent apart: docs/CONTRACTS.md names write_answer, which takes them so.
ghost use Rattle.std.specs.Prelude.{◌≡◌, length};
ghost use Rattle.wording.specs.Written.{Written};
ghost use Rattle.checker.specs.Output.{output_of, found_text};

use search::searches::search_good;
use table::Table;
use verdicts::{write_refused, write_verdict};
use wording::Line;

// Writes the whole output for a good table.
fn write_good(
    table: &Table,
    work: &mut [u16; 26368],
    run: &mut [u16; 512],
    out: &mut [u8; 8192],
) -> usize
    ensures { Written out.old 0 (found_text table.now.bytes.now) out.new result }
{
    let verdict = search_good(table, work, run);
    write_verdict(out, table, verdict, run)
}

// Writes the whole output for the input's bytes, and answers how many bytes that is. The longest table has 36,874.
#[tactic(auto, using(common::proofs::ChoiceLaws::choices), unfolding(crate::specs::Output::output_of, crate::specs::Output::found, search::specs::Searching::search_of))]
pub fn write_answer(
    t: &[u8],
    work: &mut [u16; 26368],
    run: &mut [u16; 512],
    out: &mut [u8; 8192],
) -> usize
    ensures { Written out.old 0 (output_of t.now) out.new result }
{
    if 36874 < t.len() {
        return Line::TooLong.write(out, 0);
    }
    match Table::check(t) {
        Ok(table) => write_good(&table, work, run, out),
        Err(refusal) => write_refused(out, refusal.into()),
    }
}
