// The leaves of a tree, and its winner.
ghost use Rattle.std.specs.Prelude.{◌≡◌, ℕ, ◌+◌, ◌≤◌, length};
ghost use Rattle.rules.specs.Layout.{row_size};
ghost use Rattle.rules.specs.Read.{leaves, winner};
ghost use Rattle.tree.specs.Rows.{rev_at};
ghost use Rattle.tree.specs.Table.{tree_in, row_start, Within, Searchable};
ghost use Rattle.tree.specs.Leaf.{leaf_of, leaf_size, LeafPut, LeavesPut, CanPutLeaves};

use crate::row::{content_kind, content_label};
use crate::table::{Body, kind_at, rev_at, row_at};
use layout::{HASH_IN, KIND_IN};
use octets::number::{put4, put8};
use octets::run::put_hash;
use rules::{Content, Leaf};

// A leaf in bytes begins as a row does: its number, hash and kind. The label follows the kind.
const LEAF_LABEL_IN: usize = KIND_IN + 1;

pub const LEAF: usize = LEAF_LABEL_IN + 8;

// How many rows are leaves.
pub fn leaf_count(s: &[u8], body: Body) -> usize
    requires { Within body s.now }
    ensures { result ≡ length (leaves (tree_in body s.now)) }
{
    let mut count = 0;
    for i in 0..body.rows {
        if kind_at(s, body, i).is_some() {
            count += 1;
        }
    }
    count
}

// Writes a leaf.
pub fn put_leaf(out: &mut [u8], at: usize, leaf: Leaf)
    requires { at + leaf_size ≤ length out.old }
    ensures { LeafPut out.old at leaf out.new }
{
    put4(out, at, leaf.rev.number.0);
    put_hash(out, at + HASH_IN, leaf.rev.hash);
    out[at + KIND_IN] = content_kind(leaf.content);
    put8(out, at + LEAF_LABEL_IN, content_label(leaf.content));
}

// Writes the leaves at the front of out, from the last row down.
pub fn put_leaves(s: &[u8], body: Body, out: &mut [u8])
    requires { CanPutLeaves body s.now out.old }
    ensures { LeavesPut (tree_in body s.now) out.old out.new }
{
    let mut at = 0;
    for i in (0..body.rows).rev() {
        let row = row_at(s, body, i);
        if let Some(content) = row.content {
            let rev = row.rev;
            put_leaf(out, at, Leaf { rev, content });
            at += LEAF;
        }
    }
}

// The leaf in row i, which has this content.
fn leaf_at(s: &[u8], body: Body, i: usize, content: Content) -> Leaf
    requires { row_start body i + row_size ≤ length s.now }
    ensures { result ≡ leaf_of (rev_at (row_start body i) s.now) content }
{
    let rev = rev_at(s, body, i);
    Leaf { rev, content }
}

// The winner: from the last row down the first live leaf, else the first deleted one.
pub fn winner_of(s: &[u8], body: Body) -> Option<Leaf>
    requires { Searchable body s.now }
    ensures { result ≡ winner (tree_in body s.now) }
{
    let mut deleted = None;
    for i in (0..body.rows).rev() {
        match kind_at(s, body, i) {
            None => {}
            Some(Content::Live(label)) => {
                return Some(leaf_at(s, body, i, Content::Live(label)));
            }
            Some(Content::Deleted) => {
                deleted = deleted.or(Some(i));
            }
        }
    }
    Some(leaf_at(s, body, deleted?, Content::Deleted))
}
