// The lines of a report. Each is written into a slice that the caller lends, and the place after it is
// answered.
ghost use Rattle.std.specs.Prelude.{◌++◌, ◌+◌, ◌*◌, ◌≤◌, ◌<◌, length};
ghost use Rattle.rules.specs.Report.{decimal, line_of, line_text, head_text, replica_text, refused_text};
ghost use Rattle.text.specs.Text.{decimal_most, PutWithin};
ghost use Rattle.tree.specs.Table.{tree_in};
ghost use Rattle.store.specs.Storage.{replica_of};
ghost use Rattle.store.specs.Documents.{documents_of, document_at};
ghost use Rattle.report.specs.Lines.{head_most, counts_most, standing_most, line_most, report_most, refused_most};
ghost use Rattle.report.specs.Lines.{counts_text, standing_text, lines_text};
ghost use Rattle.report.specs.Lines.{CanPutHead, CanPutCounts, CanPutStanding, CanPutLine, CanPutLines, CanPutReplica};

use crate::words::{
    AT, CONFLICTS, END, HAS_DOCUMENTS, HAS_REVISIONS, LEAVES, OWN_SEQ, REFUSED, SEQ, WINNER,
};
use faults::fault_number;
use rules::Fault;
use store::read::{body_of, documents_held, id_of, own_sequence, revisions_held, update_sequence};
use text::{put_decimal, put_hex, put_rev, put_word};
use tree::leaf::{leaf_count, winner_of};
use tree::table::Body;

// Writes a word and a number.
fn put_field(s: &mut [u8], at: usize, word: &[u8], v: u32) -> usize
    requires { at + length word.now + decimal_most ≤ length s.old }
    ensures { PutWithin (length word.now + decimal_most) (word.now ++ decimal v) s.old at result s.new }
{
    let next = put_word(s, at, word);
    put_decimal(s, next, v as u64)
}

// The head line: the update sequence, and how many documents and revisions there are.
pub(crate) fn put_head(b: &[u8], s: &mut [u8]) -> usize
    requires { CanPutHead b.now s.old }
    ensures { PutWithin head_most (head_text (replica_of b.now)) s.old 0 result s.new }
{
    let seq = update_sequence(b);
    let documents = documents_held(b);
    let revisions = revisions_held(b);
    let d = put_field(s, 0, &SEQ, seq.0);
    let r = put_field(s, d, &HAS_DOCUMENTS, documents as u32);
    let head_end = put_field(s, r, &HAS_REVISIONS, revisions as u32);
    put_word(s, head_end, &END)
}

// The end of a document's line: its leaves, all but one of which are conflicts.
fn put_counts(s: &mut [u8], at: usize, leaves: usize) -> usize
    requires { CanPutCounts s.old at leaves }
    ensures { PutWithin counts_most (counts_text leaves) s.old at result s.new }
{
    let c = put_field(s, at, &LEAVES, leaves as u32);
    let line_end = put_field(s, c, &CONFLICTS, (leaves - 1) as u32);
    put_word(s, line_end, &END)
}

// The line of a refused image.
pub(crate) fn put_refused(s: &mut [u8], f: Fault, place: u32) -> usize
    requires { refused_most ≤ length s.old }
    ensures { PutWithin refused_most (refused_text (f, place)) s.old 0 result s.new }
{
    let number = fault_number(f);
    let at = put_field(s, 0, &REFUSED, number);
    let end = put_field(s, at, &AT, place);
    put_word(s, end, &END)
}

// The part of a document's line that its revisions give.
fn put_standing(b: &[u8], body: Body, s: &mut [u8], at: usize) -> usize
    requires { CanPutStanding body b.now s.old at }
    ensures { PutWithin standing_most (standing_text (tree_in body b.now)) s.old at result s.new }
{
    let w = put_word(s, at, &WINNER);
    // A tree has a winner.
    let top = winner_of(b, body).unwrap();
    let c = put_rev(s, w, top.rev);
    put_counts(s, c, leaf_count(b, body))
}

// The line of document d.
fn put_line(b: &[u8], d: usize, s: &mut [u8], at: usize) -> usize
    requires { CanPutLine b.now d s.old at }
    ensures { PutWithin line_most (line_text (line_of (document_at (documents_of b.now) d))) s.old at result s.new }
{
    let q = put_hex(s, at, id_of(b, d));
    let seq = own_sequence(b, d);
    let w = put_field(s, q, &OWN_SEQ, seq.0);
    let body = body_of(b, d);
    put_standing(b, body, s, w)
}

// A line for each document.
fn put_lines(b: &[u8], s: &mut [u8], at: usize) -> usize
    requires { CanPutLines b.now s.old at }
    ensures { PutWithin (line_most * length (documents_of b.now)) (lines_text (documents_of b.now)) s.old at result s.new }
{
    let n = documents_held(b);
    let mut next = at;
    for d in 0..n {
        next = put_line(b, d, s, next);
    }
    next
}

// The report of a replica.
pub(crate) fn put_replica(b: &[u8], s: &mut [u8]) -> usize
    requires { CanPutReplica b.now s.old }
    ensures { PutWithin report_most (replica_text (replica_of b.now)) s.old 0 result s.new }
{
    let next = put_head(b, s);
    put_lines(b, s, next)
}
