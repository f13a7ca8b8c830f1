// One row of a list, read from its record into lent memory. All functions here are inner.
ghost use Rattle.std.specs.Prelude.{◌≡◌, ◌+◌, ◌*◌, ◌<◌, ◌≤◌, length};
ghost use Rattle.lists.specs.Reading.{frame_at, read_payload, read_row};
ghost use Rattle.lists.specs.Loading.{memory};
ghost use Rattle.lists.specs.Steps.{Room, RowTold};

use crate::products::{Frame, Framed, Progress};
use reader::numbers::number_at;
use table::{Fault, Shape};

// The kind of a list's records. They have no other, so that an enum of kinds would have one.
pub const KIND: usize = 16;

// How much of the memory is filled: so many rows, products of rows, and atoms of products.
#[derive(Clone, Copy, Debug, PartialEq, Eq)]
pub struct Filled {
    pub rows: usize,
    pub products: usize,
    pub atoms: usize,
}

// The tests that each list record has before its payload is looked at, where i rows came before: four bytes there, kind, payload there, count.
// Inner.
#[tactic(auto, using(common::proofs::ChoiceLaws::choices), unfolding(crate::specs::Reading::frame_at))]
fn frame_at(list: &[u8], at: usize, i: usize) -> Result<usize, Fault>
    requires { at ≤ length list.now }
    ensures { result ≡ frame_at list.now at i }
{
    let left = list.len() - at;
    if left < 4 {
        return Err(Fault::Cut); // in its first four bytes
    }
    let size = number_at(list, at);
    let kind = number_at(list, at + 2);
    let payload = left - 4;
    if kind != KIND {
        return Err(Fault::Kind);
    }
    if payload < size {
        return Err(Fault::Cut); // in its payload
    }
    if 1024 <= i {
        return Err(Fault::Count);
    }
    Ok(at + 4 + size)
}

// Reads the row in the payload that ends at a place: state, products, and nothing over. The three lent slices stay apart: a struct of them would
// add, to each function that it goes through, the promise that it still holds the same three. Inner.
#[tactic(auto, using(common::proofs::ChoiceLaws::choices), unfolding(crate::specs::Steps::RowTold, crate::specs::Reading::read_payload))]
fn read_payload(
    list: &[u8],
    s: Shape,
    at: usize,
    end: usize,
    m: Filled,
    states: &mut [usize],
    starts: &mut [usize],
    atoms: &mut [u16],
) -> Result<Progress, Fault>
    requires { (at + 4 ≤ end) × (end ≤ length list.now) × (m.rows < 1024) × Room s m (memory states.old starts.old atoms.old) }
    ensures { RowTold result (read_payload s list.now at end) (length list.now) s.channels at m (memory states.old starts.old atoms.old) (memory states.new starts.new atoms.new) }
{
    if end - at < 6 {
        return Err(Fault::Length);
    }
    let state = number_at(list, at + 4);
    if s.states <= state {
        return Err(Fault::Field(4));
    }
    states[m.rows] = state;
    let record = Framed {
        list,
        frame: Frame {
            at,
            end,
            messages: s.messages,
        },
    };
    let from = Progress {
        at: at + 6,
        atoms: m.atoms,
    };
    let next = record.read_products(from, s.channels, m.products, starts, atoms)?;
    if next.at < end {
        return Err(Fault::Length);
    }
    Ok(next)
}

// Reads the row whose record stands at a place. Inner.
#[tactic(auto, using(crate::proofs::RowLaws::frames), unfolding(crate::specs::Steps::RowTold, crate::specs::Reading::read_row))]
pub fn read_row(
    list: &[u8],
    s: Shape,
    at: usize,
    m: Filled,
    states: &mut [usize],
    starts: &mut [usize],
    atoms: &mut [u16],
) -> Result<Progress, Fault>
    requires { (at ≤ length list.now) × Room s m (memory states.old starts.old atoms.old) }
    ensures { RowTold result (read_row s list.now at m.rows) (length list.now) s.channels at m (memory states.old starts.old atoms.old) (memory states.new starts.new atoms.new) }
{
    let end = frame_at(list, at, m.rows)?;
    read_payload(list, s, at, end, m, states, starts, atoms)
}

// The number of the product of channel c of row i. Inner.
pub fn product_number(i: usize, channels: usize, c: usize) -> usize
    requires { (i ≤ 1024) × (channels ≤ 4) × (c ≤ 4) }
    ensures { result ≡ i * channels + c }
{
    i * channels + c
}
