// Rows written as bytes, one behind the other. All functions here are inner.
ghost use Rattle.std.specs.Prelude.{◌≡◌, ◌≤◌, length};
ghost use Rattle.common.specs.Front.{front};
ghost use Rattle.table.specs.Listing.{listed};
ghost use Rattle.lists.specs.Format.{joined, number_bytes, product_bytes, payload_bytes, row_bytes, list_bytes};
ghost use Rattle.writer.specs.Words.{product_in, row_in, rows_in};
ghost use Rattle.writer.specs.Placing.{RoomFor, Placed};

use crate::sizes::payload_size;
use crate::words::{FitRow, FitRows};
use lists::KIND;

// The list's bytes, and the place where the next one goes.
#[derive(Drop)]
struct Placing<'a> {
    list: &'a mut [u8],
    at: usize,
}

impl Placing<'_> {
    // Writes bytes. Inner.
    fn bytes(&mut self, bytes: &[u8])
        requires { RoomFor bytes.now self.old }
        ensures { Placed bytes.now self.old self.new }
    {
        let end = self.at + bytes.len();
        self.list[self.at..end].copy_from_slice(bytes);
        self.at = end;
    }

    // Writes a number in two bytes. Inner.
    fn number(&mut self, n: u16)
        requires { RoomFor (number_bytes n) self.old }
        ensures { Placed (number_bytes n) self.old self.new }
    {
        self.bytes(&n.to_le_bytes());
    }

    // Writes atoms. The place is moved once, behind them: moved with each, it was slower. Inner.
    fn atoms(&mut self, p: &[u16])
        requires { RoomFor (joined number_bytes p.now) self.old }
        ensures { Placed (joined number_bytes p.now) self.old self.new }
    {
        for (k, a) in p.iter().enumerate() {
            let at = self.at + 2 * k;
            self.list[at..at + 2].copy_from_slice(&a.to_le_bytes());
        }
        self.at += 2 * p.len();
    }

    // Writes a product: its count, and its atoms. Inner.
    fn product(&mut self, p: &[u16])
        requires room { RoomFor (product_bytes p.now) self.old }
        requires narrow { length p.now ≤ 24 }
        ensures { Placed (product_bytes p.now) self.old self.new }
    {
        self.bytes(&[p.len() as u8]);
        self.atoms(p);
    }

    // Writes the products of a row. Inner.
    fn products(&mut self, fit: &FitRow)
        requires { RoomFor (joined product_bytes (listed (product_in fit.now.row.work.now fit.now.row.number) fit.now.channels 0)) self.old }
        ensures { Placed (joined product_bytes (listed (product_in fit.now.row.work.now fit.now.row.number) fit.now.channels 0)) self.old self.new }
    {
        for c in 0..fit.channels {
            self.product(fit.row.product(c));
        }
    }

    // Writes a row's payload: its state, and its products. Inner.
    fn payload(&mut self, fit: &FitRow)
        requires { RoomFor (payload_bytes fit.now.channels (row_in fit.now.channels fit.now.row.work.now fit.now.row.number)) self.old }
        ensures { Placed (payload_bytes fit.now.channels (row_in fit.now.channels fit.now.row.work.now fit.now.row.number)) self.old self.new }
    {
        self.number(fit.row.state() as u16);
        self.products(fit);
    }

    // Writes a row's record: the payload's length, its kind, and the payload. Inner.
    fn row(&mut self, fit: &FitRow)
        requires { RoomFor (row_bytes fit.now.channels (row_in fit.now.channels fit.now.row.work.now fit.now.row.number)) self.old }
        ensures { Placed (row_bytes fit.now.channels (row_in fit.now.channels fit.now.row.work.now fit.now.row.number)) self.old self.new }
    {
        self.number(payload_size(fit) as u16);
        self.number(KIND as u16);
        self.payload(fit);
    }

    // Writes the records of rows. Inner.
    fn rows(&mut self, rows: &FitRows)
        requires { RoomFor (list_bytes rows.now.channels (rows_in rows.now.channels rows.now.rows.work.now rows.now.rows.count)) self.old }
        ensures { Placed (list_bytes rows.now.channels (rows_in rows.now.channels rows.now.rows.work.now rows.now.rows.count)) self.old self.new }
    {
        for i in 0..rows.rows.count {
            self.row(&rows.row(i));
        }
    }
}

// Writes the list of the first rows to the front. Inner.
pub fn write_rows(rows: &FitRows, list: &mut [u8])
    requires { length (list_bytes rows.now.channels (rows_in rows.now.channels rows.now.rows.work.now rows.now.rows.count)) ≤ length list.old }
    ensures { list.new ≡ front (list_bytes rows.now.channels (rows_in rows.now.channels rows.now.rows.work.now rows.now.rows.count)) list.old }
{
    let mut placing = Placing { list, at: 0 };
    placing.rows(rows);
}
