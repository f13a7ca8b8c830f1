// What a move that is possible makes of a row: one channel has a new product of so many atoms. A quiet move changes none: channel 4, no atoms. That is
// no Option: the definition outcome_row puts a product at a channel, which at channel 4 changes nothing, so that look, new row and laws have one case.
// The count stands beside the buffer: outcome_into promises what the buffer holds afterwards, and a slice lent from it in its place would end that promise.
#[derive(Clone, Copy, Debug, PartialEq, Eq)]
pub struct Changed {
    pub channel: usize,
    pub count: usize,
}
