// The list reader: any bytes are taken, for the shape of a good table; each gets its one answer, the number of its rows or the first refusal.
// The rows of a good list are left in memory that the caller lends. All functions are inner: they ask that the memory is long enough and that
// the shape keeps the table's limits.
#![tactic(auto)]

pub mod products;
pub mod reading;
pub mod records;

// What the later parts name.
pub use crate::reading::read_list;
pub use crate::records::{KIND, product_number};
