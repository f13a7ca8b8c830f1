// The run to a bad outcome, rebuilt from its end with every channel empty.
ghost use Rattle.std.specs.Prelude.{◌<◌};
ghost use Rattle.table.specs.Systems.{system_of};
ghost use Rattle.search.specs.Standing.{LeadBack};

use crate::passes::Ended;
use back::moves::Rebuilding;
use table::Table;
use work::reading::{move_of, parent_of};

// The visit that the search ended with, and the rows that stood there. They lead back to row 0; the visit's row is one of them, its transition one of
// the table's.
#[derive(Clone, Copy)]
pub struct LastVisit<'a> {
    pub table: &'a Table<'a>,
    pub words: &'a [u16],
    pub end: Ended,
    pub ghost leads_back: { LeadBack (system_of table.now.bytes.now) words.now end.rows },
    pub ghost there: { (end.row < end.rows) × (end.transition < table.now.shape.transitions) },
}

impl LastVisit<'_> {
    ghost use Rattle.std.specs.Prelude.{◌≡◌, ◌+◌, ◌*◌, ◌≤◌, length};
    ghost use Rattle.common.specs.Front.{front};
    ghost use Rattle.work.specs.Room.{room_of};
    ghost use Rattle.findings.specs.Rebuild.{rebuilt};
    ghost use Rattle.findings.proofs.LengthLaws.{size};
    ghost use Rattle.back.specs.Needs.{needed, Needed, standing};
    ghost use Rattle.search.specs.Runs.{system_at, rows_at, run_to};

    // Goes back from the visit's row to row 0, and puts the words of each move in front of those that stand. No `for`: each row says which one it was
    // made from. Inner.
    fn back_to_start(&self, rebuilding: &mut Rebuilding)
        requires few_needed { Needed 1 rebuilding.old.needs }
        requires room { 2048 + size (system_at self.now).channels (needed rebuilding.old.needs) + 2 * self.now.end.row ≤ rebuilding.old.run.at + 2 * room_of (length self.now.words.now) }
        ensures words { standing rebuilding.new.run ≡ rebuilt (system_at self.now) self.now.end.row (rows_at self.now) self.now.end.row (needed rebuilding.old.needs) (standing rebuilding.old.run) }
        ensures few_words { 2048 ≤ rebuilding.new.run.at + 2 * room_of (length self.now.words.now) }
    {
        let mut row = self.end.row;
        while 0 < row {
            rebuilding.back_over(self.table, move_of(self.words, row));
            row = parent_of(self.words, row);
        }
    }

    // Rebuilds the run whose last move is the visit's transition. Answers the whole struct: the words taken out of it would be copied. Inner.
    fn rebuild(&self) -> Rebuilding
        ensures words { standing result.run ≡ run_to self.now }
        ensures few_words { 2048 ≤ result.run.at + 2 * room_of (length self.now.words.now) }
    {
        let mut rebuilding = Rebuilding::new();
        rebuilding.back_over(self.table, self.end.transition);
        self.back_to_start(&mut rebuilding);
        rebuilding
    }

    // Writes that run into the first words of the run buffer, and answers how many they are. Inner.
    #[tactic(auto, using(crate::proofs::RunLaws::run_lengths))]
    pub fn write_run(&self, run: &mut [u16]) -> usize
        requires room { 2 * room_of (length self.now.words.now) ≤ length run.old }
        ensures steps { result ≡ length (run_to self.now) }
        ensures words { run.new ≡ front (run_to self.now) run.old }
    {
        let rebuilt = self.rebuild();
        let words = rebuilt.run.standing();
        let steps = words.len();
        run[..steps].copy_from_slice(words);
        steps
    }
}
