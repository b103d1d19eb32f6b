// The path of a revision: "the revision itself, followed by the path of its parent".
ghost use Rattle.std.specs.Prelude.{ℕ, ◌+◌, ◌≤◌, length};
ghost use Rattle.rules.specs.Layout.{row_size};
ghost use Rattle.tree.specs.Table.{body, tree_in, row_start, Searchable};
ghost use Rattle.tree.specs.Path.{path_above, IsParent, IsAboveCount, IsPathCount, CanPutAbove, HashesPut, CanPutPath, PathPut};

use crate::table::{Body, find, row_at};
use octets::run::put_hash;
use rules::{HASH, RevNumber, Revision};

// The parent of row i, if one is known whose path is not empty. The walks ask by the row's place and not by
// its revision, so that no level of theirs keeps a revision besides the one that it looks for.
fn parent_of(s: &[u8], base: usize, i: usize) -> Option<Revision>
    requires { row_start (body base i) i + row_size ≤ length s.now }
    ensures { IsParent base i s.now result }
{
    let row = row_at(s, Body { base, rows: i }, i);
    let number = row.rev.number.0;
    if number < 2 {
        return None;
    }
    let hash = row.parent?;
    Some(Revision {
        number: RevNumber(number - 1),
        hash,
    })
}

// How many revisions the path of row i's parent has. The row's number falls by one at each call, and since a
// parent lies before its child, only the rows before are left to search.
fn count_above(s: &[u8], base: usize, i: usize) -> usize
    requires { Searchable (body base (i + 1)) s.now }
    ensures { IsAboveCount base i s.now result }
{
    let Some(parent) = parent_of(s, base, i) else {
        return 0;
    };
    let Ok(j) = find(s, Body { base, rows: i }, parent) else {
        return 1;
    };
    1 + count_above(s, base, j)
}

// How many revisions the path has.
pub fn path_count(s: &[u8], body: Body, rev: Revision) -> usize
    requires { Searchable body s.now }
    ensures { IsPathCount body s.now rev result }
{
    if rev.number.0 == 0 {
        return 0;
    }
    let Ok(i) = find(s, body, rev) else {
        return 1;
    };
    1 + count_above(s, body.base, i)
}

// Writes the hashes of the path of row i's parent, and answers the place after them.
fn put_above(s: &[u8], base: usize, i: usize, out: &mut [u8], at: usize) -> usize
    requires { CanPutAbove base i s.now out.old at }
    ensures { HashesPut (path_above base i s.now) at out.old result out.new }
{
    let Some(parent) = parent_of(s, base, i) else {
        return at;
    };
    put_hash(out, at, parent.hash);
    let next = at + HASH;
    let Ok(j) = find(s, Body { base, rows: i }, parent) else {
        return next;
    };
    put_above(s, base, j, out, next)
}

// Writes the path's hashes and answers the place after them.
pub fn put_path(s: &[u8], body: Body, rev: Revision, out: &mut [u8], at: usize) -> usize
    requires { CanPutPath body s.now rev out.old at }
    ensures { PathPut (tree_in body s.now) rev at out.old result out.new }
{
    if rev.number.0 == 0 {
        return at;
    }
    put_hash(out, at, rev.hash);
    let next = at + HASH;
    let Ok(i) = find(s, body, rev) else {
        return next;
    };
    put_above(s, body.base, i, out, next)
}
