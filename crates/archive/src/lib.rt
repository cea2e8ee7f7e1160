// Archives of sheets, request 2026-05: N, t and 4,096 counts in Z order, at one size. Where a cell's count stands is in `order`, by the
// table in `table`; *write archive* stands in `write`, *read archive* in `read`.
#![tactic(auto)]

pub mod order;
pub mod read;
mod table;
pub mod write;

// The length of an archive in bytes.
pub const ARCHIVE_SIZE: usize = 16392;
