// Tree: one document's tree, stored as rows in a slice that the caller lends.
// It uses the crates rules, octets and layout.
#![tactic(auto)]

pub mod leaf;
pub mod path;
pub mod row;
pub mod table;
