// A reader holds the lent table and the place of a record. Its methods are thin: each calls a plain function over the slice and the place.
ghost use Rattle.std.specs.Prelude.{◌≡◌};
ghost use Rattle.reader.specs.Records.{record_at, payload_at};
ghost use Rattle.reader.specs.Walks.{walk_records};

use crate::records::{Record, payload_at, record_at};

#[derive(Clone, Copy)]
pub struct Reader<'a> {
    pub table: &'a [u8],
    pub at: usize,
}

impl<'a> Reader<'a> {
    // A reader of a table, before the record at a place.
    pub fn before(table: &'a [u8], at: usize) -> Reader<'a>
        ensures { (result.table ≡ table.entry) × (result.at ≡ at) }
    {
        Reader { table, at }
    }

    // The next record.
    pub fn record(&self) -> Option<Record>
        ensures { result ≡ record_at self.now.table.now self.now.at }
    {
        record_at(self.table, self.at)
    }

    // The next record's payload, as that part of the lent table.
    pub fn payload(&self) -> &'a [u8]
        ensures { result.now ≡ payload_at self.now.table.now self.now.at }
    {
        payload_at(self.table, self.at)
    }
}

// The place of a record inside which the bytes end.
#[derive(Clone, Copy, Debug, PartialEq, Eq)]
pub struct Cut {
    pub at: usize,
}

// The walk over all records, whatever their kinds: how many there are, or the one inside which the bytes end. No `for`: each record says where the
// next one stands.
pub fn walk_records(t: &[u8]) -> Result<usize, Cut>
    ensures { result ≡ walk_records t.now }
{
    let mut count: usize = 0;
    let mut here = Reader::before(t, 0);
    while here.at < t.len() {
        let record = here.record().ok_or(Cut { at: here.at })?;
        count += 1;
        here.at = record.next;
    }
    Ok(count)
}
