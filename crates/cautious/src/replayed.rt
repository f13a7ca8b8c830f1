// Search and replay in a row: unsafe comes only with a run that the replay played to a bad state.
ghost use Rattle.std.specs.Prelude.{◌≡◌, ◌≤◌, length, take};
ghost use Rattle.replay.specs.Replaying.{replay_of};
ghost use Rattle.cautious.specs.Replayed.{by_replay, ReplaysSearch};

use replay::{Ending, replay};
use search::searches::{Verdict, search};

// Unsafe, with so many rows, and the replay of so many first words of the run buffer reached bad in as many steps.
#[derive(Clone, Copy, Debug, PartialEq, Eq)]
pub struct Reached {
    pub rows: usize,
    pub steps: usize,
}

// Why not: the search said unsafe, but the replay did not reach bad; or the search answered otherwise.
#[derive(Clone, Copy)]
pub enum NotReached {
    Denied(Result<Ending, replay::Refused>),
    NotUnsafe(Result<Verdict, search::searches::Refused>),
}

// Has a run replayed, found with so many rows. Inner.
fn replay_words(t: &[u8], rows: usize, run: &[u16]) -> Result<Reached, NotReached>
    ensures { result ≡ by_replay rows (replay_of t.now run.now) }
{
    match replay(t, run) {
        Ok(Ending::Bad(steps)) => Ok(Reached { rows, steps }),
        answer => Err(NotReached::Denied(answer)),
    }
}

// Searches, and with unsafe has the run replayed. Any bytes and any lent words are taken.
pub fn search_and_replay(t: &[u8], work: &mut [u16], run: &mut [u16]) -> Result<Reached, NotReached>
    ensures { ReplaysSearch t.now work.old run.old result work.new run.new }
{
    match search(t, work, run) {
        Ok(Verdict::Unsafe { rows, steps }) => replay_words(t, rows, &run[..steps]),
        answer => Err(NotReached::NotUnsafe(answer)),
    }
}
