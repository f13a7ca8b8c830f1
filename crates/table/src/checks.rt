// The table check: one header, then 0 to 1,024 transitions, then bad states, strictly rising; the first fault refuses.
ghost use Rattle.std.specs.Prelude.{◌≡◌, ◌+◌, ◌*◌, ◌≤◌, length};
ghost use Rattle.table.specs.Checking.{kind_number, payload_size, framed_at, kind_at, read_header, transition_step, scan_transitions, bad_step, scan_bads, check_rest, check_table};

use crate::faults::{Fault, Refusal};
use crate::fields::{Header, bad_fields, entry_of, header_fields, header_of, transition_fields};
use reader::numbers::number_at;
use reader::reader::Reader;

// The kinds of a table's records.
#[derive(Clone, Copy, Debug, PartialEq, Eq)]
pub enum Kind {
    Header,
    Transition,
    Bad,
}

// The number that a record of a kind has.
impl From<Kind> for usize {
    ghost from_gives = { λ kind number. number ≡ kind_number kind };

    fn from(kind: Kind) -> usize {
        match kind {
            Kind::Header => 1,
            Kind::Transition => 2,
            Kind::Bad => 3,
        }
    }
}

impl Kind {
    // The size of a record's payload.
    pub fn size(self) -> usize
        ensures { result ≡ payload_size self }
    {
        match self {
            Kind::Header => 6,
            Kind::Transition => 8,
            Kind::Bad => 2,
        }
    }
}

// A good table: the header's numbers, how many transitions and how many bad states.
// Transition i's record stands at 10 + 12 i, bad state i's at 10 + 12 transitions + 6 i.
#[derive(Clone, Copy, Debug, PartialEq, Eq)]
pub struct Shape {
    pub states: usize,
    pub channels: usize,
    pub messages: usize,
    pub start: usize,
    pub transitions: usize,
    pub bads: usize,
}

// The tests that each table record has: four bytes there, kind, length, payload there.
#[tactic(auto, using(common::proofs::ChoiceLaws::choices), unfolding(crate::specs::Checking::framed_at))]
fn framed_at(here: Reader, kind: Kind) -> Result<(), Fault>
    requires { here.at ≤ length here.table.now }
    ensures { result ≡ framed_at here.entry.table.now here.entry.at (kind_number kind) (payload_size kind) }
{
    let left = here.table.len() - here.at;
    if left < 4 {
        return Err(Fault::Cut);
    }
    let found_size = number_at(here.table, here.at);
    let found_kind = number_at(here.table, here.at + 2);
    let size = kind.size();
    if found_kind != usize::from(kind) {
        return Err(Fault::Kind);
    }
    if found_size != size {
        return Err(Fault::Length);
    }
    if left - 4 < size {
        return Err(Fault::Cut);
    }
    Ok(())
}

// The number of the kind of the record at a place; none where its four bytes are not there.
#[tactic(auto, using(common::proofs::ChoiceLaws::choices), unfolding(crate::specs::Checking::kind_at))]
fn kind_at(here: Reader) -> Option<usize>
    requires { here.at ≤ length here.table.now }
    ensures { result ≡ kind_at here.entry.table.now here.entry.at }
{
    if here.table.len() - here.at < 4 {
        return None;
    }
    Some(number_at(here.table, here.at + 2))
}

// The header.
#[tactic(auto, using(crate::proofs::FrameLaws::framed_tells), unfolding(crate::specs::Checking::read_header))]
fn read_header(t: &[u8]) -> Result<Header, Fault>
    ensures { result ≡ read_header t.now }
{
    let here = Reader::before(t, 0);
    framed_at(here, Kind::Header)?;
    header_fields(header_of(here.payload()))
}

// Whether a transition stands at a place where transition number count may stand, and not a bad state.
#[tactic(auto, using(common::proofs::ChoiceLaws::choices, crate::proofs::FrameLaws::framed_tells), unfolding(crate::specs::Checking::transition_step))]
fn transition_step(here: Reader, h: Header, count: usize) -> Result<bool, Fault>
    requires { here.at ≤ length here.table.now }
    ensures { result ≡ transition_step here.entry.table.now h here.entry.at count }
{
    if kind_at(here) == Some(usize::from(Kind::Bad)) {
        return Ok(false);
    }
    framed_at(here, Kind::Transition)?;
    if 1024 <= count {
        return Err(Fault::Count);
    }
    transition_fields(h, entry_of(here.payload()))?;
    Ok(true)
}

// The transitions, from place 10 on: how many there are. The walk ends at the first bad state, or at the table's end. No `for`: how many there are is answered
// at either end, so that the count would be kept beside a `for` over places too.
fn check_transitions(t: &[u8], h: Header) -> Result<usize, Refusal>
    ensures { result ≡ scan_transitions 1025 t.now h 0 }
{
    let mut count: usize = 0;
    let mut here = Reader::before(t, 10);
    while here.at < t.len() {
        match transition_step(here, h, count) {
            Ok(true) => {
                count += 1;
                here.at += 12;
            }
            Ok(false) => return Ok(count),
            Err(fault) => return Err(Refusal { fault, at: here.at }),
        }
    }
    Ok(count)
}

// The record at a place where a bad state not below low must stand: the lowest that may follow it.
#[tactic(auto, using(crate::proofs::FrameLaws::framed_tells), unfolding(crate::specs::Checking::bad_step))]
fn bad_step(here: Reader, states: usize, low: usize) -> Result<usize, Fault>
    requires { here.at ≤ length here.table.now }
    ensures { result ≡ bad_step here.entry.table.now states here.entry.at low }
{
    framed_at(here, Kind::Bad)?;
    bad_fields(number_at(here.payload(), 0), states, low)
}

// The bad states, from a place on: how many there are. No `for`: the count and the lowest state that may follow would be kept beside a `for` over places too.
fn check_bads(t: &[u8], states: usize, from: usize) -> Result<usize, Refusal>
    ensures { result ≡ scan_bads (length t.now) t.now states from 0 0 }
{
    let mut count: usize = 0;
    let mut here = Reader::before(t, from);
    let mut low: usize = 0;
    while here.at < t.len() {
        match bad_step(here, states, low) {
            Ok(next) => {
                count += 1;
                here.at += 6;
                low = next;
            }
            Err(fault) => return Err(Refusal { fault, at: here.at }),
        }
    }
    Ok(count)
}

// What follows a header.
#[tactic(auto, unfolding(crate::specs::Checking::check_rest))]
fn check_rest(t: &[u8], h: Header) -> Result<Shape, Refusal>
    ensures { result ≡ check_rest t.now h }
{
    let transitions = check_transitions(t, h)?;
    let bads = check_bads(t, h.states, 10 + 12 * transitions)?;
    Ok(Shape {
        states: h.states,
        channels: h.channels,
        messages: h.messages,
        start: h.start,
        transitions,
        bads,
    })
}

// The table check. Any bytes are taken.
#[tactic(auto, unfolding(crate::specs::Checking::check_table))]
pub fn check_table(t: &[u8]) -> Result<Shape, Refusal>
    ensures { result ≡ check_table t.now }
{
    match read_header(t) {
        Ok(h) => check_rest(t, h),
        Err(fault) => Err(Refusal { fault, at: 0 }),
    }
}
