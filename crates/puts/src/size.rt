// How long the lines of a document are.
ghost use Rattle.std.specs.Prelude.{◌≡◌, true, length};
ghost use Rattle.rules.specs.Read.{path_of};
ghost use Rattle.tree.specs.Table.{tree_in, Within};
ghost use Rattle.lines.specs.Put.{lines_text};
ghost use Rattle.puts.specs.Puts.{end_text, line_size, CanSize, Rooted, CanCount, CanPut};

use crate::words::{DELETED, END, IDS, LABEL, NEXT, REV, REVISIONS, START};
use rules::{Content, HASH, RevNumber, Revision};
use text::{DASH, decimal_size};
use tree::path::path_count;
use tree::table::{Body, kind_at, rev_at, row_at};

// A hash with the word before it. Hex has two digits a byte.
const NEXT_SIZE: usize = NEXT.len() + 2 * HASH;

// What every line has but its id, its numbers, its path and its content. No word stands before the first hash
// of a path besides the one that is counted here.
const FIXED: usize = START.len() + REV.len() + DASH.len() + 2 * HASH + REVISIONS.len() + IDS.len()
    - NEXT.len();

fn content_size(content: Content) -> usize
    ensures { result ≡ length (end_text content) }
{
    match content {
        Content::Live(label) => LABEL.len() + decimal_size(label) + END.len(),
        Content::Deleted => DELETED.len(),
    }
}

// The size of a line by the length of its id, its number, how many hashes its path has, and its content.
fn line_size(id: usize, number: RevNumber, hashes: usize, content: Content) -> usize
    requires { CanSize id hashes }
    ensures { result ≡ line_size id number hashes content }
{
    let digits = decimal_size(number.0 as u64);
    FIXED + id + 2 * digits + hashes * NEXT_SIZE + content_size(content)
}

// Whether every revision's parent is known but where its number is 1. Then a path has as many hashes as its
// revision's number says, and none is walked to be counted.
fn is_rooted(b: &[u8], body: Body) -> bool
    requires { Within body b.now }
    ensures { result ≡ true → Rooted body b.now body.rows }
{
    for i in 0..body.rows {
        let row = row_at(b, body, i);
        if row.parent.is_some() {
            continue;
        }
        let number = row.rev.number;
        if 1 < number.0 {
            return false;
        }
    }
    true
}

// How many hashes the path of a revision among the rows has.
fn hashes_of(b: &[u8], body: Body, rev: Revision, rooted: bool) -> usize
    requires { CanCount body b.now rev rooted }
    ensures { result ≡ length (path_of (tree_in body b.now) rev) }
{
    if rooted {
        let number = rev.number;
        return number.0 as usize;
    }
    path_count(b, body, rev)
}

// The size of all lines.
pub(crate) fn lines_size(b: &[u8], body: Body, id: &[u8]) -> usize
    requires { CanPut body b.now id.now }
    ensures { result ≡ length (lines_text id.now (tree_in body b.now)) }
{
    let rooted = is_rooted(b, body);
    let mut size = 0;
    for i in (0..body.rows).rev() {
        if let Some(content) = kind_at(b, body, i) {
            let rev = rev_at(b, body, i);
            let hashes = hashes_of(b, body, rev, rooted);
            size += line_size(id.len(), rev.number, hashes, content);
        }
    }
    size
}
