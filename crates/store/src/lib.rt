// Store: a replica in a buffer that the caller lends.
// The buffer has fixed regions: a head, room for every document's entry, and room for every row. All
// that is held lies in order at the front of its region, and the rest of the buffer is zero. It uses
// the crates rules, octets, layout and tree.
#![tactic(auto)]

pub mod change;
pub mod read;
