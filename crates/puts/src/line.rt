// The line of a leaf, in three parts. Each is written into a slice that the caller lends, and the place after
// it is answered.
ghost use Rattle.std.specs.Prelude.{◌+◌, ◌*◌, ◌/◌, ◌≤◌, length};
ghost use Rattle.rules.specs.Room.{hash_size};
ghost use Rattle.text.specs.Text.{Put};
ghost use Rattle.tree.specs.Leaf.{leaf_of};
ghost use Rattle.tree.specs.Table.{tree_in};
ghost use Rattle.lines.specs.Put.{leaf_line};
ghost use Rattle.puts.specs.Puts.{start_most, start_text, next_size, next_texts, path_size, path_text, end_text, hashes_in, CanPutLine, LinePut};

use crate::words::{DELETED, END, IDS, LABEL, NEXT, REV, REVISIONS, START};
use rules::{Content, HASH, Revision};
use text::{put_decimal, put_hex, put_rev, put_word};
use tree::path::put_path;
use tree::table::Body;

// Writes the id and the revision.
fn put_start(s: &mut [u8], at: usize, id: &[u8], rev: Revision) -> usize
    requires { at + start_most (length id.now) ≤ length s.old }
    ensures { Put (start_text id.now rev) s.old at result s.new }
{
    let i = put_word(s, at, &START);
    let w = put_word(s, i, id);
    let v = put_word(s, w, &REV);
    put_rev(s, v, rev)
}

// Writes hashes behind another.
fn put_next(s: &mut [u8], at: usize, hashes: &[u8]) -> usize
    requires { at + length hashes.now / hash_size * next_size ≤ length s.old }
    ensures { Put (next_texts (hashes_in hashes.now)) s.old at result s.new }
{
    let mut next = at;
    for hash in hashes.chunks_exact(HASH) {
        let h = put_word(s, next, &NEXT);
        next = put_hex(s, h, hash);
    }
    next
}

// Writes the path: the number, the revision's own hash, and the hashes behind it.
fn put_revisions(s: &mut [u8], at: usize, rev: Revision, hashes: &[u8]) -> usize
    requires { at + path_size rev.number.0 (length hashes.now / hash_size) ≤ length s.old }
    ensures { Put (path_text rev (hashes_in hashes.now)) s.old at result s.new }
{
    let number = rev.number;
    let own = rev.hash;
    let n = put_word(s, at, &REVISIONS);
    let w = put_decimal(s, n, number.0 as u64);
    let h = put_word(s, w, &IDS);
    let next = put_hex(s, h, &own);
    put_next(s, next, hashes)
}

// Writes the content and the line's end.
fn put_content(s: &mut [u8], at: usize, content: Content) -> usize
    requires { at + length (end_text content) ≤ length s.old }
    ensures { Put (end_text content) s.old at result s.new }
{
    match content {
        Content::Live(label) => {
            let n = put_word(s, at, &LABEL);
            let w = put_decimal(s, n, label);
            put_word(s, w, &END)
        }
        Content::Deleted => put_word(s, at, &DELETED),
    }
}

// Writes the line of a leaf with its whole path, whose hashes stand in `path` meanwhile.
pub(crate) fn put_line(
    b: &[u8],
    body: Body,
    id: &[u8],
    rev: Revision,
    content: Content,
    path: &mut [u8],
    s: &mut [u8],
    at: usize,
) -> usize
    requires { CanPutLine body b.now id.now rev content path.old s.old at }
    ensures { LinePut (leaf_line id.now (tree_in body b.now) (leaf_of rev content)) path.old s.old at result path.new s.new }
{
    let end = put_path(b, body, rev, path, 0);
    let w = put_start(s, at, id, rev);
    let c = put_revisions(s, w, rev, &path[HASH..end]);
    put_content(s, c, content)
}
