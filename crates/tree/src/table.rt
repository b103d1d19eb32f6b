// A table of rows in a slice: read, searched and changed.
ghost use Rattle.std.specs.Prelude.{◌≡◌, ℕ, ◌+◌, ◌≤◌, length};
ghost use Rattle.rules.specs.Layout.{row_size};
ghost use Rattle.rules.specs.Map.{find};
ghost use Rattle.rules.specs.Order.{order_rev};
ghost use Rattle.rules.specs.Replica.{revision};
ghost use Rattle.rules.specs.Write.{is_none};
ghost use Rattle.tree.specs.Rows.{row_at, rev_at};
ghost use Rattle.tree.specs.Table.{tree_in, row_start, place_of, Searchable, CanInsert, RowInserted};

use crate::row::{Row, compare_at, get_kind, get_rev, get_row, put_row};
use layout::ROW;
use octets::run::move_up;
use rules::{Content, HASH, RevNumber, Revision};
use std::cmp::Ordering;

// A tree's rows: where the first begins, and how many follow each other.
#[derive(Clone, Copy)]
pub struct Body {
    pub base: usize,
    pub rows: usize,
}

// Row i.
pub fn row_at(s: &[u8], body: Body, i: usize) -> Row
    requires { row_start body i + row_size ≤ length s.now }
    ensures { result ≡ row_at (row_start body i) s.now }
{
    get_row(s, body.base + i * ROW)
}

// Row i's revision.
pub fn rev_at(s: &[u8], body: Body, i: usize) -> Revision
    requires { row_start body i + row_size ≤ length s.now }
    ensures { result ≡ rev_at (row_start body i) s.now }
{
    get_rev(s, body.base + i * ROW)
}

// Row i's kind.
pub fn kind_at(s: &[u8], body: Body, i: usize) -> Option<Content>
    requires { row_start body i + row_size ≤ length s.now }
    ensures { result ≡ (row_at (row_start body i) s.now).content }
{
    get_kind(s, body.base + i * ROW)
}

// The first row that is not below a number and hash: it, or the gap before it. By halves, and by hand: the
// rows are bytes, and the library searches a slice of values, which they would first be read into.
fn search(s: &[u8], body: Body, number: RevNumber, hash: [u8; HASH]) -> Result<usize, usize>
    requires { Searchable body s.now }
    ensures { result ≡ place_of 0 (revision number.0 hash) (tree_in body s.now) }
{
    let mut lo = 0;
    let mut hi = body.rows;
    while lo < hi {
        let mid = lo + (hi - lo) / 2;
        match compare_at(number, hash, s, body.base + mid * ROW) {
            Ordering::Less => {
                hi = mid;
            }
            Ordering::Equal => {
                return Ok(mid);
            }
            Ordering::Greater => {
                lo = mid + 1;
            }
        }
    }
    Err(lo)
}

// Where rev is. The last row is tried first, since a history mostly grows at its end.
pub fn find(s: &[u8], body: Body, rev: Revision) -> Result<usize, usize>
    requires { Searchable body s.now }
    ensures { result ≡ place_of 0 rev (tree_in body s.now) }
{
    let rows = body.rows;
    if rows == 0 {
        return Err(0);
    }
    let last = rows - 1;
    let base = body.base;
    let number = rev.number;
    let hash = rev.hash;
    match compare_at(number, hash, s, base + last * ROW) {
        Ordering::Less => search(s, Body { base, rows: last }, number, hash),
        Ordering::Equal => Ok(last),
        Ordering::Greater => Err(rows),
    }
}

// Whether rev is in no row.
pub fn is_missing(s: &[u8], body: Body, rev: Revision) -> bool
    requires { Searchable body s.now }
    ensures { result ≡ is_none (find order_rev rev (tree_in body s.now)) }
{
    find(s, body, rev).is_err()
}

// Puts a row in at `at`: the bytes from there to `end` move up, and the row takes the gap.
pub fn insert_row(s: &mut [u8], at: usize, end: usize, row: Row)
    requires { CanInsert at end s.old }
    ensures { RowInserted at end row s.old s.new }
{
    move_up(s, at, end - at, ROW);
    put_row(s, at, row);
}
