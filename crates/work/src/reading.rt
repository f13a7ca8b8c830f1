// The words of a row, read where they stand. All functions here are inner. Words and number stay two parameters, and the first three words have a function
// each and no struct: the look over rows needs the state alone, and each function asks for its own words; the writer's Row stands over them.
ghost use Rattle.std.specs.Prelude.{◌≡◌, ◌+◌, ◌*◌, ◌<◌, ◌≤◌, length, get_or};
ghost use Rattle.common.specs.Part.{part};
ghost use Rattle.work.specs.Layout.{atoms_place, count_place};
ghost use Rattle.work.specs.Room.{room_of};

use crate::places::{ROW, ROWS, count_place};

// The state of row i. Inner.
pub fn state_of(w: &[u16], i: usize) -> usize
    requires { 103 * i < length w.now }
    ensures { result ≡ get_or w.now (103 * i) 0 }
{
    usize::from(w[ROW * i])
}

// The parent of row i. Inner.
pub fn parent_of(w: &[u16], i: usize) -> usize
    requires { 103 * i + 1 < length w.now }
    ensures { result ≡ get_or w.now (103 * i + 1) 0 }
{
    usize::from(w[ROW * i + 1])
}

// The transition that led to row i. Inner.
pub fn move_of(w: &[u16], i: usize) -> usize
    requires { 103 * i + 2 < length w.now }
    ensures { result ≡ get_or w.now (103 * i + 2) 0 }
{
    usize::from(w[ROW * i + 2])
}

// How many atoms channel c of row i has. Inner.
pub fn count_of(w: &[u16], i: usize, c: usize) -> usize
    requires { count_place i c < length w.now }
    ensures { result ≡ get_or w.now (count_place i c) 0 }
{
    usize::from(w[count_place(i, c)])
}

// The atoms of channel c of row i, where they stand. Inner.
pub fn product_of(w: &[u16], i: usize, c: usize) -> &[u16]
    requires { atoms_place i c + get_or w.now (count_place i c) 0 ≤ length w.now }
    ensures { result.now ≡ part (atoms_place i c) (atoms_place i c + get_or w.now (count_place i c) 0) w.now }
{
    let first = count_place(i, c) + 1;
    &w[first..first + count_of(w, i, c)]
}

// The whole rows that fit into this many words, at most 1,024. Inner.
pub fn room_of(words: usize) -> usize
    ensures { result ≡ room_of words }
{
    (words / ROW).min(ROWS)
}
