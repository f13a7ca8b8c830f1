// Search, writer and judge in a row: safe comes only with a list that the judge accepted.
ghost use Rattle.std.specs.Prelude.{◌≡◌, length};
ghost use Rattle.writer.specs.Writing.{written, left_by, bytes_of};
ghost use Rattle.judge.specs.Judging.{judge_of};
ghost use Rattle.cautious.specs.Judged.{by_judge, by_writer, JudgesSearch};

use judge::{Judgement, judge};
use search::searches::{Verdict, search};
use writer::write_list;

// Safe, with so many rows, and the judge accepted their list in so many first bytes of the list buffer.
#[derive(Clone, Copy, Debug, PartialEq, Eq)]
pub struct Accepted {
    pub rows: usize,
    pub bytes: usize,
}

// Why not: the search said safe, but its list was not written, or not accepted; or the search answered otherwise.
#[derive(Clone, Copy)]
pub enum NotAccepted {
    Unwritten(writer::Refused),
    Denied(Result<Judgement, judge::Refused>),
    NotSafe(Result<Verdict, search::searches::Refused>),
}

// Has a list of so many rows judged. Inner.
fn judge_bytes(t: &[u8], rows: usize, list: &[u8]) -> Result<Accepted, NotAccepted>
    ensures { result ≡ by_judge rows (length list.now) (judge_of t.now list.now) }
{
    let bytes = list.len();
    match judge(t, list) {
        Ok(Judgement::Accepted) => Ok(Accepted { rows, bytes }),
        answer => Err(NotAccepted::Denied(answer)),
    }
}

// Writes the first rows of the work table as a list, and has it judged. Inner.
#[tactic(auto, using(crate::proofs::JudgedLaws::list_tells))]
fn judge_rows(t: &[u8], work: &[u16], rows: usize, list: &mut [u8]) -> Result<Accepted, NotAccepted>
    ensures value { result ≡ by_writer t.now rows (bytes_of t.now work.now rows) (written t.now work.now rows (length list.old)) }
    ensures list_after { list.new ≡ left_by (written t.now work.now rows (length list.old)) (bytes_of t.now work.now rows) list.old }
{
    match write_list(t, work, rows, list) {
        Ok(bytes) => judge_bytes(t, rows, &list[..bytes]),
        Err(refused) => Err(NotAccepted::Unwritten(refused)),
    }
}

// Searches, and with safe writes the rows as a list and has it judged. Any bytes and any lent words are taken.
pub fn search_and_judge(
    t: &[u8],
    work: &mut [u16],
    run: &mut [u16],
    list: &mut [u8],
) -> Result<Accepted, NotAccepted>
    ensures { JudgesSearch t.now work.old run.old list.old result work.new run.new list.new }
{
    match search(t, work, run) {
        Ok(Verdict::Safe(rows)) => judge_rows(t, work, rows, list),
        answer => Err(NotAccepted::NotSafe(answer)),
    }
}
