// The words of a report, and how long its lines are at most.
use rules::ID_MOST;
use text::{DECIMAL, REV_MOST};

pub(crate) const SEQ: [u8; 4] = *b"seq ";

pub(crate) const HAS_DOCUMENTS: [u8; 11] = *b" documents ";

pub(crate) const HAS_REVISIONS: [u8; 11] = *b" revisions ";

pub(crate) const OWN_SEQ: [u8; 5] = *b" seq ";

pub(crate) const WINNER: [u8; 8] = *b" winner ";

pub(crate) const LEAVES: [u8; 8] = *b" leaves ";

pub(crate) const CONFLICTS: [u8; 11] = *b" conflicts ";

pub(crate) const REFUSED: [u8; 8] = *b"refused ";

pub(crate) const AT: [u8; 4] = *b" at ";

pub(crate) const END: [u8; 1] = *b"\n";

pub(crate) const HEAD_MOST: usize = SEQ.len()
    + DECIMAL
    + HAS_DOCUMENTS.len()
    + DECIMAL
    + HAS_REVISIONS.len()
    + DECIMAL
    + END.len();

const COUNTS_MOST: usize = LEAVES.len() + DECIMAL + CONFLICTS.len() + DECIMAL + END.len();

// Hex has two digits a byte.
pub(crate) const LINE_MOST: usize = 2 * ID_MOST
    + OWN_SEQ.len()
    + DECIMAL
    + WINNER.len()
    + REV_MOST
    + COUNTS_MOST;
