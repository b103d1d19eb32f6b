// Union: demand 3 as theorems over the definitions of rules, and the frame law: what writes, edits
// and pulls leave is the union of what was given and held, and one document's write changes no
// other. It uses rules and has no code: specs/Said.antt has what the theorems say beyond rules, and
// proofs/Demand3.antt the theorems.
#![tactic(auto)]
