// Rules: the words that every other crate speaks.
// It holds the values that pass between the crates, the limits and the refusals, and under specs/
// what they mean: the definitions that every promise cites. It uses no other crate.
#![tactic(auto)]

// The room: what a replica holds at most, and what one path holds at most. All other sizes follow.
pub const DOCUMENTS: usize = 32;

pub const REVISIONS: usize = 512;

pub const PATH_HASHES: usize = 512;

// The bytes of a hash, and of an id at most.
pub const HASH: usize = 16;

pub const ID_MOST: usize = 32;

// A revision's number, from 1 on. It never serves as a sequence.
#[derive(Clone, Copy)]
pub struct RevNumber(pub u32);

// An update sequence, 0 when fresh. It never serves as a revision's number.
#[derive(Clone, Copy)]
pub struct Seq(pub u32);

// The largest revision number.
pub const NUMBER_MOST: u32 = 4294967295;

// The largest update sequence.
pub const SEQ_MOST: u32 = 4294967295;

#[derive(Clone, Copy)]
pub struct Revision {
    pub number: RevNumber,
    pub hash: [u8; 16],
}

// A live body with its label, or a deletion, which has none.
#[derive(Clone, Copy)]
pub enum Content {
    Live(u64),
    Deleted,
}

// A leaf: a revision with its content.
#[derive(Clone, Copy)]
pub struct Leaf {
    pub rev: Revision,
    pub content: Content,
}

// Why a call was refused. `refusal_number` in specs/Refusal.antt gives each its number.
#[derive(Clone, Copy)]
pub enum Refusal {
    BadId,
    BadPath,
    LowNumber,
    OtherParent,
    OtherContent,
    DocumentsFull,
    RevisionsFull,
    SequenceSpent,
    NotAParent,
    AlreadyKnown,
    LastNumber,
    NoDocument,
    NoRevision,
    ShortBuffer,
    BadAsked,
    NotJson,
    BadMember,
    OtherRevisions,
    UnwritableId,
}

// What is wrong with an image. `fault_number` in specs/Refusal.antt gives each its number.
#[derive(Clone, Copy)]
pub enum Fault {
    TooShort,
    BadEdition,
    BadHead,
    BadContents,
    BadSequence,
    BadRow,
    BadParent,
}

// What an accepted write did.
#[derive(Clone, Copy)]
pub enum Outcome {
    Changed,
    Unchanged,
}

// A document that changed: its id's length, its own sequence, its leaves, and whether its winner is
// a deletion.
#[derive(Clone, Copy)]
pub struct Change {
    pub id_len: usize,
    pub seq: Seq,
    pub leaves: usize,
    pub deleted: bool,
}

// The offers of a pull by what became of them.
#[derive(Clone, Copy)]
pub struct Counts {
    pub changed: usize,
    pub unchanged: usize,
    pub refused: usize,
}

// How many documents and revisions a replica holds.
#[derive(Clone, Copy)]
pub struct Held {
    pub documents: usize,
    pub revisions: usize,
}
