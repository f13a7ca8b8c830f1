// Rows of a work table, read where they stand. All functions here are inner. They are not the WorkRows of crate outcome, whose type has that no product is
// over 24 atoms: that is what is tested here.
ghost use Rattle.std.specs.Prelude.{◌≡◌, ◌+◌, ◌*◌, ◌<◌, ◌≤◌, length, get_or};
ghost use Rattle.writer.specs.Words.{count_in, product_in, Writable, AllWritable};

use work::reading::{count_of, product_of, state_of};

// Row number `number` of a work table. Its 103 words are there.
#[derive(Clone, Copy)]
pub struct Row<'a> {
    pub work: &'a [u16],
    pub number: usize,
    pub ghost there: { 103 * number + 103 ≤ length work.now },
}

impl<'a> Row<'a> {
    // The row's state.
    pub fn state(&self) -> usize
        ensures { result ≡ get_or self.now.work.now (103 * self.now.number) 0 }
    {
        state_of(self.work, self.number)
    }

    // How many atoms channel c has.
    pub fn count(&self, c: usize) -> usize
        requires { c < 4 }
        ensures { result ≡ count_in self.now.work.now self.now.number c }
    {
        count_of(self.work, self.number, c)
    }

    // The atoms of channel c.
    pub fn product(&self, c: usize) -> &'a [u16]
        requires { (c < 4) × (count_in self.now.work.now self.now.number c ≤ 24) }
        ensures { result.now ≡ product_in self.now.work.now self.now.number c }
    {
        product_of(self.work, self.number, c)
    }
}

// A row that can be written for so many channels: its numbers fit into their bytes.
#[derive(Clone, Copy)]
pub struct FitRow<'a> {
    pub row: Row<'a>,
    pub channels: usize,
    pub ghost few: { channels ≤ 4 },
    pub ghost fits: { Writable channels row.work.now row.number },
}

// The first rows of a work table. Their words are there.
#[derive(Clone, Copy)]
pub struct Rows<'a> {
    pub work: &'a [u16],
    pub count: usize,
    pub ghost there: { 103 * count ≤ length work.now },
}

impl<'a> Rows<'a> {
    // Row i.
    pub fn row(&self, i: usize) -> Row<'a>
        requires { i < self.now.count }
        ensures { (result.work.now ≡ self.now.work.now) × (result.number ≡ i) }
    {
        Row {
            work: self.work,
            number: i,
        }
    }
}

// Rows that can be written for so many channels.
#[derive(Clone, Copy)]
pub struct FitRows<'a> {
    pub rows: Rows<'a>,
    pub channels: usize,
    pub ghost few: { channels ≤ 4 },
    pub ghost fits: { AllWritable channels rows.work.now rows.count },
}

impl<'a> FitRows<'a> {
    // Row i.
    pub fn row(&self, i: usize) -> FitRow<'a>
        requires { i < self.now.rows.count }
        ensures { (result.row.work.now ≡ self.now.rows.work.now) × (result.row.number ≡ i) × (result.channels ≡ self.now.channels) }
    {
        FitRow {
            row: self.rows.row(i),
            channels: self.channels,
        }
    }
}
