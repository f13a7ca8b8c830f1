// Transition i of a good table as a value, read at its fixed place.
ghost use Rattle.std.specs.Prelude.{◌≡◌, ◌+◌, ◌*◌, ◌<◌, ◌≤◌, length};
ghost use Rattle.table.specs.Transitions.{operation_from, transition_at};

use crate::fields::{Entry, entry_of};
use crate::good::Table;
use reader::numbers::number_at;
use reader::records::part_of;

// What a transition does: nothing to the channels, a send on a channel of a message, or a receive. The two numbers have no struct of their own: the
// functions that take both are called from a `match` on this, which has them by name. That they are in the table's range is no fact of the type:
// `transition_at`, which docs/CONTRACTS.md names, reads any bytes.
#[derive(Clone, Copy, Debug, PartialEq, Eq)]
pub enum Operation {
    Quiet,
    Send { channel: usize, message: usize },
    Receive { channel: usize, message: usize },
}

#[derive(Clone, Copy, Debug, PartialEq, Eq)]
pub struct Transition {
    pub source: usize,
    pub target: usize,
    pub operation: Operation,
    pub label: usize,
}

// The operation that a transition's numbers name: 0 quiet, 1 send; any other is taken as 2, receive. No TryFrom: `transition_at` cannot fail.
#[tactic(auto, using(common::proofs::ChoiceLaws::choices), unfolding(crate::specs::Transitions::operation_from))]
impl From<Entry> for Operation {
    ghost from_gives = { λ entry operation. operation ≡ operation_from entry };

    fn from(entry: Entry) -> Operation {
        let Entry {
            channel,
            message,
            ..
        } = entry;
        match entry.operation {
            0 => Operation::Quiet,
            1 => Operation::Send { channel, message },
            _ => Operation::Receive { channel, message },
        }
    }
}

// Transition i. Inner: its record's bytes are there, as they are in a good table for each of its transitions.
#[tactic(auto, using(reader::proofs::RecordLaws::part_length), unfolding(crate::specs::Transitions::transition_at))]
pub fn transition_at(t: &[u8], i: usize) -> Transition
    requires { 10 + 12 * i + 12 ≤ length t.now }
    ensures { result ≡ transition_at t.now i }
{
    let e = entry_of(part_of(t, 10 + 12 * i, 8));
    let operation = Operation::from(e);
    Transition {
        source: e.source,
        target: e.target,
        operation,
        label: e.label,
    }
}

// Where transition i comes from. Inner, as transition_at is.
#[tactic(auto, using(reader::proofs::RecordLaws::part_length), unfolding(crate::specs::Transitions::transition_at, crate::specs::Fields::entry_of))]
pub fn source_at(t: &[u8], i: usize) -> usize
    requires { 10 + 12 * i + 12 ≤ length t.now }
    ensures { result ≡ (transition_at t.now i).source }
{
    number_at(part_of(t, 10 + 12 * i, 8), 0)
}

impl Table<'_> {
    // Transition i. Inner: it is one of the table's.
    pub fn transition(&self, i: usize) -> Transition
        requires { i < self.now.shape.transitions }
        ensures { result ≡ transition_at self.now.bytes.now i }
    {
        transition_at(self.bytes, i)
    }

    // Where transition i comes from. Inner, as transition is.
    pub fn source(&self, i: usize) -> usize
        requires { i < self.now.shape.transitions }
        ensures { result ≡ (transition_at self.now.bytes.now i).source }
    {
        source_at(self.bytes, i)
    }
}
