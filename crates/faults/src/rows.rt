// 25: each row by itself, and the order of a document's rows.
ghost use Rattle.std.specs.Prelude.{◌≡◌, ◌||◌, ◌&&◌, not, ◌+◌, ◌*◌, ◌≤◌, eqb, length};
ghost use Rattle.std.specs.Prelude.{None};
ghost use Rattle.rules.specs.Bytes.{all_zero};
ghost use Rattle.rules.specs.Faults.{first_true, bad_row, bad_rows, row_not_above};
ghost use Rattle.rules.specs.Layout.{row_size};
ghost use Rattle.faults.specs.Each.{Rows};
ghost use Rattle.faults.specs.Places.{row_at, rows_in, rev_before};
ghost use Rattle.faults.specs.Each.{CanTest};

use crate::each::Ask;
use layout::ROW;
use layout::row::{hash, kind, known, label, number, parent, row_zero};
use octets::order::all_zero;
use rules::RevNumber;
use tree::row::compare_at;
use tree::table::Body;

// A parent at number 1, or the hash of a parent that is not known.
fn parent_bad(s: &[u8], at: usize, flag: u8, number: RevNumber) -> bool
    requires { at + row_size ≤ length s.now }
    ensures { result ≡ ((eqb flag 1 && eqb number.0 1) || (eqb flag 0 && not (all_zero (row_at at s.now).parent))) }
{
    (flag == 1 && number.0 == 1) || (flag == 0 && !all_zero(&parent(s, at)))
}

// A label where there is no live body.
fn label_bad(s: &[u8], at: usize, kind: u8) -> bool
    requires { at + row_size ≤ length s.now }
    ensures { result ≡ (not (eqb kind 1) && not (eqb (row_at at s.now).label 0)) }
{
    kind != 1 && label(s, at) != 0
}

// The row at `at` by itself.
#[tactic(auto, unfolding(rules::specs::Faults::bad_row))]
fn row_bad(s: &[u8], at: usize) -> bool
    requires { at + row_size ≤ length s.now }
    ensures { result ≡ bad_row (row_at at s.now) }
{
    let own = number(s, at);
    let k = kind(s, at);
    let flag = known(s, at);
    2 < k
        || 1 < flag
        || row_zero(s, at) != 0
        || own.0 == 0
        || parent_bad(s, at, flag, own)
        || label_bad(s, at, k)
}

// Row j of the rows from base on is not above the one before it. Most numbers ascend, and their hashes need not be
// read.
fn order_bad(s: &[u8], base: usize, j: usize) -> bool
    requires { base + j * row_size + row_size ≤ length s.now }
    ensures { result ≡ row_not_above (rev_before base j s.now) (row_at (base + j * row_size) s.now).rev }
{
    if j == 0 {
        return false;
    }
    let b = base + j * ROW;
    let a = b - ROW;
    let x = number(s, a);
    let y = number(s, b);
    y.0 <= x.0 && compare_at(x, hash(s, a), s, b).is_ge()
}

// 25.
pub(crate) struct AskRows;

impl Ask for AskRows {
    ghost rule = { Rows };

    fn first_bad(s: &[u8], body: Body, k: usize) -> Option<usize> {
        let base = body.base;
        (0..body.rows)
            .find(|&j| row_bad(s, base + j * ROW) || order_bad(s, base, j))
            .map(|j| k + j)
    }
}
