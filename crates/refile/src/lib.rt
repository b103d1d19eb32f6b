// Refile: what a service links, as the crate refile_c exports it to C. Each function checks what only this
// boundary can get, calls the proved library, and turns its answer into one number. include/refile.h
// documents every call. It uses every crate below; above it stand only refile_c, and demands, which has
// theorems about these calls and no code.
#![tactic(auto)]

pub mod about;
mod answer;
pub mod change;
mod number;
pub mod read;
