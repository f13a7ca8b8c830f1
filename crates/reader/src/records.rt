// The record step over a slice and a place. A record: two-byte payload length, two-byte kind, payload.
ghost use Rattle.std.specs.Prelude.{◌≡◌, ◌+◌, ◌≤◌, length};
ghost use Rattle.reader.specs.Records.{record_at, part_of, payload_at};

use crate::numbers::number_at;

// A whole record: its kind, its payload's length and the place of the next record.
#[derive(Clone, Copy, Debug, PartialEq, Eq)]
pub struct Record {
    pub kind: usize,
    pub size: usize,
    pub next: usize,
}

// The record at a place; none where the bytes end inside it. Any place is taken.
#[tactic(auto, using(common::proofs::ChoiceLaws::choices), unfolding(crate::specs::Records::record_at))]
pub fn record_at(t: &[u8], at: usize) -> Option<Record>
    ensures { result ≡ record_at t.now at }
{
    if t.len() < at || t.len() - at < 4 {
        return None;
    }
    let size = number_at(t, at);
    let kind = number_at(t, at + 2);
    if t.len() - at - 4 < size {
        return None;
    }
    let next = at + 4 + size;
    Some(Record { kind, size, next })
}

// The payload of size bytes of the record at a place, as that part of the lent table. Inner: the bytes are there.
#[tactic(auto, unfolding(crate::specs::Records::part_of))]
pub fn part_of(t: &[u8], at: usize, size: usize) -> &[u8]
    requires { at + 4 + size ≤ length t.now }
    ensures { result.now ≡ part_of t.now at size }
{
    let from = at + 4;
    &t[from..from + size]
}

// The payload of the record at a place, as that part of the lent table; nothing of it where the bytes end inside the record.
#[tactic(auto, using(common::proofs::ChoiceLaws::choices), unfolding(crate::specs::Records::record_at, crate::specs::Records::payload_at))]
pub fn payload_at(t: &[u8], at: usize) -> &[u8]
    ensures { result.now ≡ payload_at t.now at }
{
    match record_at(t, at) {
        Some(record) => part_of(t, at, record.size),
        None => &[],
    }
}
