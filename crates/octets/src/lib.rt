// Octets: numbers and runs of bytes in a slice that the caller lends.
// Each function that writes promises the exact bytes it leaves, as a splice. It uses the crate rules.
#![tactic(auto)]

pub mod number;
pub mod order;
pub mod run;
