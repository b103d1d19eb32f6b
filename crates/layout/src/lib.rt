// Layout: where each field of a head, an entry and a row stands, and each field read and written.
// An image and a replica's buffer have the same parts; a buffer keeps room for all of them. It uses the
// crates rules and octets. Each field has functions of its own, even where two differ in their place alone:
// a promise names its field, and a body is no longer than the call of a generic one would be.
#![tactic(auto)]

use rules::{DOCUMENTS, HASH, ID_MOST, REVISIONS};

pub mod entry;
pub mod head;
pub mod row;

// The head: where each field begins, and its size.
pub const DOCUMENTS_AT: usize = 2;

pub const REVISIONS_AT: usize = DOCUMENTS_AT + 2;

pub const HEAD_ZERO_AT: usize = REVISIONS_AT + 2;

pub const SEQUENCE_AT: usize = HEAD_ZERO_AT + 2;

pub const TOTAL_AT: usize = SEQUENCE_AT + 4;

pub const HEAD: usize = TOTAL_AT + 4;

// A document's entry: where each field begins in it, and its size.
pub const ID_IN: usize = 1;

const ENTRY_ZERO_IN: usize = ID_IN + ID_MOST;

pub const COUNT_IN: usize = ENTRY_ZERO_IN + 1;

pub const OWN_IN: usize = COUNT_IN + 2;

pub const PLACE_IN: usize = OWN_IN + 4;

pub const ENTRY: usize = PLACE_IN + 4;

// A revision's row: where each field begins in it, and its size.
pub const HASH_IN: usize = 4;

pub const KIND_IN: usize = HASH_IN + HASH;

pub const KNOWN_IN: usize = KIND_IN + 1;

pub const ROW_ZERO_IN: usize = KNOWN_IN + 1;

pub const PARENT_HASH_IN: usize = ROW_ZERO_IN + 2;

pub const LABEL_IN: usize = PARENT_HASH_IN + HASH;

pub const ROW: usize = LABEL_IN + 8;

// A replica's buffer: where its rows begin, and its size. The largest image is as long.
pub const ROWS: usize = HEAD + ENTRY * DOCUMENTS;

pub const SIZE: usize = ROWS + ROW * REVISIONS;

pub const IMAGE_MOST: usize = SIZE;
