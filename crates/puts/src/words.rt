// The words of a leaf's line: what stands between its id, numbers and hashes. Each begins and ends inside a
// member, so that no word is empty and the hashes of a path follow one another by one word.

// Before the id, and between it and the revision.
pub(crate) const START: [u8; 8] = *b"{\"_id\":\"";

pub(crate) const REV: [u8; 10] = *b"\",\"_rev\":\"";

// Between the revision and the path's number, and between that and its first hash.
pub(crate) const REVISIONS: [u8; 24] = *b"\",\"_revisions\":{\"start\":";

pub(crate) const IDS: [u8; 9] = *b",\"ids\":[\"";

// Between two hashes of a path.
pub(crate) const NEXT: [u8; 3] = *b"\",\"";

// From the last hash on: to the label and after it, or to the end.
pub(crate) const LABEL: [u8; 12] = *b"\"]},\"label\":";

pub(crate) const END: [u8; 2] = *b"}\n";

pub(crate) const DELETED: [u8; 21] = *b"\"]},\"_deleted\":true}\n";
