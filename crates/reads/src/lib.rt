// Reads: the read calls over a replica in a buffer that the caller lends.
// Each asks only that the buffer holds a replica, takes every other input, and promises its answer and
// the lent bytes as it leaves them. It uses the crates rules, octets, union, tree and store.
#![tactic(auto)]

pub mod document;
pub mod replica;
