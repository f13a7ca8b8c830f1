// The record reader: numbers in bytes, the record step over a slice and a place, the reader that holds both, the walk over all records.
// Public calls, which ask nothing: record_at, payload_at, walk_records and the reader's functions. The others are inner: each asks what
// its callers prove.
#![tactic(auto)]

pub mod numbers;
pub mod reader;
pub mod records;
