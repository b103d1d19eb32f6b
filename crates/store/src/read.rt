// What a replica in a buffer holds.
ghost use Rattle.std.specs.Prelude.{◌≡◌, ℕ, ◌+◌, ◌*◌, ◌<◌, ◌≤◌, length};
ghost use Rattle.rules.specs.Replica.{revisions_held};
ghost use Rattle.rules.specs.Write.{bad_id};
ghost use Rattle.store.specs.Storage.{replica_of, Laid};
ghost use Rattle.store.specs.Documents.{documents_of, document_at, first_row, place_of_id, body_at, HasDocument, Looked, IsBody, IsBodyOf};

use layout::entry::{entry_place, id, own, rows};
use layout::head::{documents, revisions, sequence};
use layout::{ROW, ROWS};
use octets::order::order_bytes;
use rules::{ID_MOST, Seq};
use std::cmp::Ordering;
use tree::table::Body;

// Refusal 1.
pub fn bad_id(id: &[u8]) -> bool
    ensures { result ≡ bad_id id.now }
{
    if id.len() == 0 {
        return true;
    }
    ID_MOST < id.len()
}

pub fn documents_held(b: &[u8]) -> usize
    requires { Laid b.now }
    ensures { result ≡ length (documents_of b.now) }
{
    documents(b)
}

pub fn revisions_held(b: &[u8]) -> usize
    requires { Laid b.now }
    ensures { result ≡ revisions_held (documents_of b.now) }
{
    revisions(b)
}

pub fn update_sequence(b: &[u8]) -> Seq
    requires { Laid b.now }
    ensures { result ≡ (replica_of b.now).seq }
{
    sequence(b)
}

// The sequence of document d's last change.
pub fn own_sequence(b: &[u8], d: usize) -> Seq
    requires { HasDocument b.now d }
    ensures { result ≡ (document_at (documents_of b.now) d).1.seq }
{
    own(b, entry_place(d))
}

// How many revisions document d has.
pub fn row_count(b: &[u8], d: usize) -> usize
    requires { HasDocument b.now d }
    ensures { result ≡ length (document_at (documents_of b.now) d).1.tree }
{
    rows(b, entry_place(d))
}

// The index of document d's first row.
fn first_row(b: &[u8], d: usize) -> usize
    requires { HasDocument b.now d }
    ensures { result ≡ first_row (documents_of b.now) d }
{
    let mut sum = 0;
    for i in 0..d {
        sum += row_count(b, i);
    }
    sum
}

// The id of document d.
pub fn id_of(b: &[u8], d: usize) -> &[u8]
    requires { HasDocument b.now d }
    ensures { result.now ≡ (document_at (documents_of b.now) d).0 }
{
    id(b, entry_place(d))
}

// Where the document `id` is, or the gap where it would go.
pub fn find_document(b: &[u8], id: &[u8]) -> Result<usize, usize>
    requires { Laid b.now }
    ensures { result ≡ place_of_id 0 id.now (documents_of b.now) }
{
    let n = documents_held(b);
    for d in 0..n {
        match order_bytes(id, id_of(b, d)) {
            Ordering::Less => {
                return Err(d);
            }
            Ordering::Equal => {
                return Ok(d);
            }
            Ordering::Greater => {}
        }
    }
    Err(n)
}

// The rows of document d.
pub fn body_of(b: &[u8], d: usize) -> Body
    requires { HasDocument b.now d }
    ensures { IsBody b.now d result }
{
    let first = first_row(b, d);
    let rows = row_count(b, d);
    Body {
        base: ROWS + first * ROW,
        rows,
    }
}

// The rows of a document that was looked for, none where it is absent.
pub fn body_at(b: &[u8], found: Result<usize, usize>) -> Body
    requires { Looked b.now found }
    ensures { result ≡ body_at (documents_of b.now) found }
{
    match found {
        Ok(d) => body_of(b, d),
        Err(_) => Body {
            base: ROWS,
            rows: 0,
        },
    }
}

// The rows of the document `id`, none where it is absent.
pub fn body_of_id(b: &[u8], id: &[u8]) -> Body
    requires { Laid b.now }
    ensures { IsBodyOf b.now id.now result }
{
    body_at(b, find_document(b, id))
}
