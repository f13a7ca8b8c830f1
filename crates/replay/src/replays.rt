// The replay of a run of a table: refusals first, then all words played; the last state decides.
ghost use Rattle.std.specs.Prelude.{◌≡◌, ◌≤◌, length};
ghost use Rattle.table.specs.Systems.{system_of};
ghost use Rattle.playing.specs.Play as play;
ghost use Rattle.replay.specs.Replaying.{found, Replays};
ghost use Rattle.replay.specs.declared.replays.Refused.TheVariants.{Table};

use crate::queues::Memory;
use crate::turns::play_word;
use table::{Refusal, Table, Told};

// How a run ends: stuck at a step, elsewhere in a state, or in a bad state after so many steps.
#[derive(Clone, Copy, Debug, PartialEq, Eq)]
pub enum Ending {
    Stuck(usize),
    Elsewhere(usize),
    Bad(usize),
}

// Why a run is not played: the table is refused, or the run has over 2,048 words.
#[derive(Clone, Copy, Debug, PartialEq, Eq)]
pub enum Refused {
    Table(Refusal),
    TooLong,
}

impl From<Refusal> for Refused {
    ghost from_gives = { λ refusal refused. refused ≡ Table refusal };

    fn from(refusal: Refusal) -> Refused {
        Refused::Table(refusal)
    }
}

// The run is input 2.
impl From<Refused> for Told {
    ghost use Rattle.std.specs.Prelude.{Err};
    ghost use Rattle.table.specs.Answers.{refusal_told};
    ghost use Rattle.replay.specs.Replaying as replay;

    ghost from_gives = { λ refused told. replay.answer_of (Err refused) ≡ replay.refused (refusal_told told) };

    fn from(refused: Refused) -> Told {
        match refused {
            Refused::Table(refusal) => Told::from(refusal),
            Refused::TooLong => Told {
                number: 6,
                input: 2,
                place: 0,
            },
        }
    }
}

// Plays all words, from the start with empty channels.
fn play_run(table: &Table, run: &[u16]) -> Ending
    requires { length run.now ≤ 2048 }
    ensures { result ≡ found (play.replay (system_of table.now.bytes.now) run.now) }
{
    let mut memory = Memory::empty();
    let mut state = table.shape.start;
    for (step, word) in run.iter().enumerate() {
        let Some(next) = play_word(table, *word, state, &mut memory) else {
            return Ending::Stuck(step);
        };
        state = next;
    }
    if table.is_bad(state) {
        return Ending::Bad(run.len());
    }
    Ending::Elsewhere(state)
}

// The replay. Any bytes and any words are taken.
pub fn replay(t: &[u8], run: &[u16]) -> Result<Ending, Refused>
    ensures { Replays t.now run.now result }
{
    let table = Table::check(t)?;
    if 2048 < run.len() {
        return Err(Refused::TooLong);
    }
    Ok(play_run(&table, run))
}
