// Demands: demands 2 and 3, the frame law and the fourteen cases as theorems about the exported C calls,
// from what each of them promises. It has no code: specs/Calls.antt says what a call is, and
// proofs/Demand2.antt, Demand3.antt, Frames.antt and Examples.antt have the theorems.
#![tactic(auto)]
