// Refile for C: what a service links, as librefile.a. Each function is the call of its name in the crate
// refile, with the same promise, which include/refile.h documents. A crate is a library or a static
// library and not both, so the exports stand alone here.
#![tactic(auto)]

mod about;
mod change;
mod read;
