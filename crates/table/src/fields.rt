// The numbers of a header and of a transition, as they stand in a payload, and the tests of their ranges in the order of the fields.
// A wrong field is told by its offset from the record's start, so 4 for the first.
ghost use Rattle.std.specs.Prelude.{◌≡◌, ◌≤◌, length};
ghost use Rattle.table.specs.Fields.{header_of, entry_of, header_fields, operation_fields, transition_fields, bad_fields};

use crate::faults::Fault;
use reader::numbers::{byte_at, number_at};

// A header's numbers.
#[derive(Clone, Copy)]
pub struct Header {
    pub states: usize,
    pub channels: usize,
    pub messages: usize,
    pub start: usize,
}

// A transition's numbers.
#[derive(Clone, Copy)]
pub struct Entry {
    pub source: usize,
    pub target: usize,
    pub operation: usize,
    pub channel: usize,
    pub message: usize,
    pub label: usize,
}

// The numbers of a header's payload. No From: it asks that the bytes are there, as `entry_of` does. Inner: its 6 bytes are there.
#[tactic(auto, unfolding(crate::specs::Fields::header_of))]
pub fn header_of(payload: &[u8]) -> Header
    requires { 6 ≤ length payload.now }
    ensures { result ≡ header_of payload.now }
{
    let states = number_at(payload, 0);
    let channels = byte_at(payload, 2);
    let messages = byte_at(payload, 3);
    let start = number_at(payload, 4);
    Header {
        states,
        channels,
        messages,
        start,
    }
}

// The numbers of a transition's payload. Inner: its 8 bytes are there.
#[tactic(auto, unfolding(crate::specs::Fields::entry_of))]
pub fn entry_of(payload: &[u8]) -> Entry
    requires { 8 ≤ length payload.now }
    ensures { result ≡ entry_of payload.now }
{
    let source = number_at(payload, 0);
    let target = number_at(payload, 2);
    let operation = byte_at(payload, 4);
    let channel = byte_at(payload, 5);
    let message = byte_at(payload, 6);
    let label = byte_at(payload, 7);
    Entry {
        source,
        target,
        operation,
        channel,
        message,
        label,
    }
}

// The ranges of a header: 1 to 4,096 states, 1 to 4 channels, 1 to 15 messages, and a start that is a state.
#[tactic(auto, using(common::proofs::ChoiceLaws::choices), unfolding(crate::specs::Fields::header_fields))]
pub fn header_fields(h: Header) -> Result<Header, Fault>
    ensures { result ≡ header_fields h }
{
    let 1..=4096 = h.states else {
        return Err(Fault::Field(4));
    };
    let 1..=4 = h.channels else {
        return Err(Fault::Field(6));
    };
    let 1..=15 = h.messages else {
        return Err(Fault::Field(7));
    };
    if h.states <= h.start {
        return Err(Fault::Field(8));
    }
    Ok(h)
}

// The ranges of a transition's operation, channel and message. A quiet one has channel 0 and message 0.
#[tactic(auto, using(common::proofs::ChoiceLaws::choices), unfolding(crate::specs::Fields::operation_fields))]
pub fn operation_fields(h: Header, e: Entry) -> Result<(), Fault>
    ensures { result ≡ operation_fields h e }
{
    if 2 < e.operation {
        return Err(Fault::Field(8));
    }
    if e.operation == 0 {
        if e.channel != 0 {
            return Err(Fault::Field(9));
        }
        if e.message != 0 {
            return Err(Fault::Field(10));
        }
        return Ok(());
    }
    if h.channels <= e.channel {
        return Err(Fault::Field(9));
    }
    if h.messages <= e.message {
        return Err(Fault::Field(10));
    }
    Ok(())
}

// The ranges of a transition: source and target are states, then its operation.
#[tactic(auto, using(common::proofs::ChoiceLaws::choices), unfolding(crate::specs::Fields::transition_fields))]
pub fn transition_fields(h: Header, e: Entry) -> Result<(), Fault>
    ensures { result ≡ transition_fields h e }
{
    if h.states <= e.source {
        return Err(Fault::Field(4));
    }
    if h.states <= e.target {
        return Err(Fault::Field(6));
    }
    operation_fields(h, e)
}

// A bad state's range, then that it is not below the lowest that may stand there. The lowest that may follow it, which is above it.
#[tactic(auto, using(common::proofs::ChoiceLaws::choices), unfolding(crate::specs::Fields::bad_fields))]
pub fn bad_fields(state: usize, states: usize, low: usize) -> Result<usize, Fault>
    ensures { result ≡ bad_fields state states low }
{
    if states <= state {
        return Err(Fault::Field(4));
    }
    if state < low {
        return Err(Fault::Rising);
    }
    Ok(state + 1)
}
