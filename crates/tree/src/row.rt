// One row: its bytes at a place of a slice, and its value.
ghost use Rattle.std.specs.Prelude.{◌≡◌, ◌∷◌, ℕ, ◌+◌, ◌≤◌, length};
ghost use Rattle.rules.specs.Bytes.{be};
ghost use Rattle.rules.specs.Layout.{kind_in, row_size};
ghost use Rattle.rules.specs.Order.{order_rev};
ghost use Rattle.rules.specs.Read.{content_kind, content_label};
ghost use Rattle.rules.specs.Replica.{revision};
ghost use Rattle.octets.specs.Splice.{splice};
ghost use Rattle.tree.specs.Rows.{kind_from, kind_byte, label_held, known_byte, row_at, rev_at, RowPut};

use layout::{HASH_IN, KIND_IN, KNOWN_IN, LABEL_IN, PARENT_HASH_IN, ROW_ZERO_IN};
use octets::number::{put2, put4, put8};
use octets::order::order_hash_at;
use octets::run::put_hash;
use rules::{Content, HASH, RevNumber, Revision};
use std::cmp::Ordering;

// A revision with what is known of it: its parent's hash, and its content where it is a leaf.
#[derive(Clone, Copy)]
pub struct Row {
    pub rev: Revision,
    pub parent: Option<[u8; HASH]>,
    pub content: Option<Content>,
}

pub(crate) fn kind_of(k: u8, label: u64) -> Option<Content>
    ensures { result ≡ kind_from k label }
{
    match k {
        0 => None,
        1 => Some(Content::Live(label)),
        _ => Some(Content::Deleted),
    }
}

// The revision at `at`.
pub(crate) fn get_rev(s: &[u8], at: usize) -> Revision
    requires { at + row_size ≤ length s.now }
    ensures { result ≡ rev_at at s.now }
{
    let number = layout::row::number(s, at);
    let hash = layout::row::hash(s, at);
    Revision { number, hash }
}

// The parent's hash at `at`, if the parent is known.
fn get_parent(s: &[u8], at: usize) -> Option<[u8; HASH]>
    requires { at + row_size ≤ length s.now }
    ensures { result ≡ (row_at at s.now).parent }
{
    if layout::row::known(s, at) == 0 {
        return None;
    }
    Some(layout::row::parent(s, at))
}

// The kind at `at`.
pub(crate) fn get_kind(s: &[u8], at: usize) -> Option<Content>
    requires { at + row_size ≤ length s.now }
    ensures { result ≡ (row_at at s.now).content }
{
    kind_of(layout::row::kind(s, at), layout::row::label(s, at))
}

// The row at `at`.
pub(crate) fn get_row(s: &[u8], at: usize) -> Row
    requires { at + row_size ≤ length s.now }
    ensures { result ≡ row_at at s.now }
{
    let rev = get_rev(s, at);
    let parent = get_parent(s, at);
    let content = get_kind(s, at);
    Row {
        rev,
        parent,
        content,
    }
}

pub(crate) fn content_kind(c: Content) -> u8
    ensures { result ≡ content_kind c }
{
    match c {
        Content::Live(_) => 1,
        Content::Deleted => 2,
    }
}

pub(crate) fn content_label(c: Content) -> u64
    ensures { result ≡ content_label c }
{
    match c {
        Content::Live(n) => n,
        Content::Deleted => 0,
    }
}

fn kind_byte(k: Option<Content>) -> u8
    ensures { result ≡ kind_byte k }
{
    k.map_or(0, content_kind)
}

fn label_of(k: Option<Content>) -> u64
    ensures { result ≡ label_held k }
{
    k.map_or(0, content_label)
}

fn flag_of(parent: Option<[u8; HASH]>) -> u8
    ensures { result ≡ known_byte parent }
{
    parent.is_some() as u8
}

// Writes the kind, the flag and the zeros of the row at `at`.
fn put_marks(s: &mut [u8], at: usize, kind: u8, flag: u8)
    requires { at + row_size ≤ length s.old }
    ensures { s.new ≡ splice s.old (at + kind_in) (kind ∷ flag ∷ be 2 0) }
{
    s[at + KIND_IN] = kind;
    s[at + KNOWN_IN] = flag;
    put2(s, at + ROW_ZERO_IN, 0);
}

// Writes a row, with zeros for the hash of a parent that isn't known.
pub fn put_row(s: &mut [u8], at: usize, row: Row)
    requires { at + row_size ≤ length s.old }
    ensures { RowPut s.old at row s.new }
{
    put4(s, at, row.rev.number.0);
    put_hash(s, at + HASH_IN, row.rev.hash);
    put_marks(s, at, kind_byte(row.content), flag_of(row.parent));
    put_hash(s, at + PARENT_HASH_IN, row.parent.unwrap_or([0u8; HASH]));
    put8(s, at + LABEL_IN, label_of(row.content));
}

// A revision's number and hash, given apart, beside the revision of the row at `at`: by number, then by
// hash. The row is compared where it stands. They come apart, since a copy of both as one is slow right
// after they were put together.
pub fn compare_at(number: RevNumber, hash: [u8; HASH], s: &[u8], at: usize) -> Ordering
    requires { at + row_size ≤ length s.now }
    ensures { result ≡ order_rev (revision number.0 hash) (rev_at at s.now) }
{
    let y = layout::row::number(s, at);
    match number.0.cmp(&y.0) {
        Ordering::Equal => order_hash_at(hash, s, at + HASH_IN),
        unequal => unequal,
    }
}
