// One run word played: it leads to a state, or it is stuck.
ghost use Rattle.std.specs.Prelude.{◌<◌};
ghost use Rattle.meaning.specs.Systems.{Ranged};
ghost use Rattle.table.specs.Transitions.{operation_of, move_of};
ghost use Rattle.replay.specs.Queues.{Queues};
ghost use Rattle.replay.specs.Turns.{Moved, Turned};

use crate::queues::Memory;
use playing::Step;
use table::{Table, Transition};

// Makes a transition from a state, if it starts there and its operation can be done; `gone` where its message is marked lost.
fn play_move(gone: bool, transition: Transition, state: usize, memory: &mut Memory) -> Option<usize>
    requires { Ranged 4 15 (operation_of transition.operation) × Queues 2047 memory.old }
    ensures { Moved gone (move_of transition) state memory.old memory.new result }
{
    if state != transition.source {
        return None;
    }
    if memory.operate(gone, transition.operation) {
        return Some(transition.target);
    }
    None
}

// Plays a word from a state.
pub fn play_word(table: &Table, word: u16, state: usize, memory: &mut Memory) -> Option<usize>
    requires { Queues 2047 memory.old }
    ensures { Turned table.now.bytes.now word state memory.old memory.new result }
{
    let step = Step::from(word);
    if step.transition < table.shape.transitions {
        return play_move(step.lost, table.transition(step.transition), state, memory);
    }
    None
}
