// Transitions that have the move of an earlier one: only their labels may differ, so that both have one outcome from a row, and one look is enough. From a
// state to another there are at most 121 moves, where a table may have 1,024 transitions. All functions here are inner.
ghost use Rattle.std.specs.Prelude.{◌≡◌, ◌<◌};
ghost use Rattle.meaning.specs.Systems.{Ranged};
ghost use Rattle.table.specs.Transitions.{operation_of};
ghost use Rattle.judge.specs.Repeats.{move_number, Sources};

use table::{Operation, Table, Transition};

// The number of a transition's move, which no other move has. Moves are compared by it: field by field, which was tried and proved, a list for a dense table
// took three times as long to judge.
#[tactic(auto, unfolding(crate::specs::Repeats::move_number))]
fn move_number(transition: Transition) -> u32
    requires states { (transition.source < 4096) × (transition.target < 4096) }
    requires ranged { Ranged 4 15 (operation_of transition.operation) }
    ensures { result ≡ move_number transition }
{
    let operation = match transition.operation {
        Operation::Quiet => 0,
        Operation::Send { channel, message } => 1 + 15 * channel + message,
        Operation::Receive { channel, message } => 61 + 15 * channel + message,
    };
    ((transition.source * 4096 + transition.target) * 121 + operation) as u32
}

// Where each of the table's transitions comes from; 4096, which is no state, for one that has the move of an earlier one. Of at most 121 none is told so: a
// row may need as many looks anyway, and a small table is not searched for them.
pub fn sources_of(table: &Table) -> [u16; 1024]
    ensures { Sources table.now.bytes.now table.now.shape.transitions result }
{
    let many = 121 < table.shape.transitions;
    let mut numbers = [0u32; 1024];
    let mut sources = [0u16; 1024];
    for j in 0..table.shape.transitions {
        let transition = table.transition(j);
        let number = move_number(transition);
        let repeats = many && numbers[..j].contains(&number);
        sources[j] = if repeats {
            4096
        } else {
            transition.source as u16
        };
        numbers[j] = number;
    }
    sources
}
