// Lines: documents as the protocol writes them, one JSON object to a line. It uses rules, union, json_text and
// values and has no code: specs/ has which text is which write and what is put out, and proofs/ the
// theorems.
#![tactic(auto)]
