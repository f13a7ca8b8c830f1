// The rows of a list where reading it left them in memory. All functions here are inner.
ghost use Rattle.std.specs.Prelude.{◌≡◌, ◌<◌, ◌≤◌, length};
ghost use Rattle.judge.specs.Look.{from_at, to_at, product_at, row_at, Range, Sized};

use lists::product_number;
use table::Table;

// The products of a list's rows: the atoms of all, one after the other, and where those of each begin: the atoms of channel c of row r stand from
// starts[r * channels + c] up to the next start.
#[derive(Clone, Copy)]
pub struct Products<'a> {
    pub starts: &'a [usize],
    pub atoms: &'a [u16],
    pub channels: usize,
    pub rows: usize,
    pub ghost sized: { Sized channels starts.now atoms.now rows },
}

impl Products<'_> {
    // Where the atoms of channel c of row r begin, and where they end.
    fn places(&self, r: usize, c: usize) -> (usize, usize)
        requires { (r < self.now.rows) × (c < self.now.channels) }
        ensures told { (result.0 ≡ from_at self.now.channels self.now.starts.now r c) × (result.1 ≡ to_at self.now.channels self.now.starts.now r c) }
        ensures range { Range result.0 result.1 (length self.now.atoms.now) }
    {
        let number = product_number(r, self.channels, c);
        (self.starts[number], self.starts[number + 1])
    }

    // The atoms of channel c of row r: no product has more than 24.
    pub fn product(&self, r: usize, c: usize) -> &[u16]
        requires { (r < self.now.rows) × (c < self.now.channels) }
        ensures atoms { result.now ≡ product_at self.now.channels self.now.starts.now self.now.atoms.now r c }
        ensures few { length result.now ≤ 24 }
    {
        let (from, to) = self.places(r, c);
        &self.atoms[from..to]
    }
}

// The rows of a list: the state of each, and their products. Three arrays in all, since read_list, which docs/CONTRACTS.md names, fills three lent slices
// (definition `memory`). Two lifetimes, since states and products are lent each on their own.
#[derive(Clone, Copy)]
pub struct Rows<'s, 'p> {
    pub states: &'s [usize],
    pub products: Products<'p>,
    pub ghost counted: { length states.now ≡ products.rows },
}

impl rows::Rows for Rows<'_, '_> {
    ghost count = { λ m. length m.states.now };

    ghost row_at = { λ m r. row_at m.products.channels m.states.now m.products.starts.now m.products.atoms.now r };

    ghost channels = { λ m. m.products.channels };

    fn count(&self) -> usize {
        self.states.len()
    }

    fn state(&self, r: usize) -> usize {
        self.states[r]
    }

    fn product(&self, r: usize, c: usize) -> &[u16] {
        self.products.product(r, c)
    }
}

// A table and the rows of a list for it, which have the table's channels. Both are lent: with copies, which were tried, the judge was up to a quarter slower.
#[derive(Clone, Copy)]
pub struct Listed<'a> {
    pub table: &'a Table<'a>,
    pub rows: &'a Rows<'a, 'a>,
    pub ghost same_channels: { rows.now.products.channels ≡ table.now.shape.channels },
}
