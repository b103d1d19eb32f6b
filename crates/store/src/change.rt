// Changes of a replica in a buffer. Each leaves the exact bytes of the changed replica.
ghost use Rattle.std.specs.Prelude.{◌≡◌, ℕ, ◌+◌, ◌*◌, ◌<◌, ◌≤◌, length};
ghost use Rattle.std.specs.Prelude.{Some};
ghost use Rattle.rules.specs.Replica.{fresh};
ghost use Rattle.rules.specs.Room.{id_most};
ghost use Rattle.rules.specs.Write.{learn};
ghost use Rattle.tree.specs.Rows.{meaning};
ghost use Rattle.tree.specs.Table.{insert_at};
ghost use Rattle.store.specs.Storage.{store_size, stored_entry, replica_of, stored, Laid};
ghost use Rattle.store.specs.Documents.{HasDocument};
ghost use Rattle.store.specs.Change.{blank, with_document, with_seq, with_tree, Holds, CanAddDocument, CanInsertRow, CanLearn, Learnt};

use crate::read::{documents_held, revisions_held};
use layout::entry::{entry_place, put_own, put_rows};
use layout::head::{put_documents, put_revisions, put_sequence};
use layout::{ENTRY, ID_IN, ROW, ROWS, SIZE};
use octets::run::{clear, copy_in, move_up};
use rules::Seq;
use tree::row::{Row, put_row};
use tree::table::{Body, find, insert_row, row_at};

// Makes the buffer a fresh replica, whatever it held.
pub fn make_fresh(b: &mut [u8])
    requires { length b.old ≡ store_size }
    ensures { Holds fresh b.new }
{
    clear(b, 0, SIZE);
}

// Makes q the update sequence and document d's own.
pub fn set_sequences(b: &mut [u8], d: usize, q: Seq)
    requires { HasDocument b.old d }
    ensures { Holds (with_seq d q (replica_of b.old)) b.new }
{
    put_own(b, entry_place(d), q);
    put_sequence(b, q);
}

// The entry of a document that has no revisions yet.
fn blank_entry(id: &[u8]) -> [u8; ENTRY]
    requires { length id.now ≤ id_most }
    ensures { result ≡ stored_entry (blank id.now) }
{
    let mut t = [0u8; ENTRY];
    t[0] = id.len() as u8;
    copy_in(&mut t, ID_IN, id);
    t
}

// Puts a document that has no revisions yet in at `at`.
pub fn add_document(b: &mut [u8], at: usize, id: &[u8])
    requires { CanAddDocument b.old at id.now }
    ensures { Holds (with_document at id.now (replica_of b.old)) b.new }
{
    let n = documents_held(b);
    let p = entry_place(at);
    move_up(b, p, (n - at) * ENTRY, ENTRY);
    let t = blank_entry(id);
    copy_in(b, p, &t);
    put_documents(b, n + 1);
}

// Puts a row in at place i of document d, whose rows stand at `body`.
fn insert_row_in(b: &mut [u8], d: usize, body: Body, i: usize, row: Row)
    requires { CanInsertRow b.old d body i }
    ensures { Holds (with_tree d (insert_at i (meaning row)) (replica_of b.old)) b.new }
{
    let n = revisions_held(b);
    insert_row(b, body.base + i * ROW, ROWS + n * ROW, row);
    put_rows(b, entry_place(d), body.rows + 1);
    put_revisions(b, n + 1);
}

// What is known of a revision once `given` is.
fn merged(held: Row, given: Row) -> Row
    requires { held.rev ≡ given.rev }
    ensures { meaning result ≡ (given.rev, learn (meaning given).1 (Some (meaning held).1)) }
{
    let rev = held.rev;
    let parent = held.parent.or(given.parent);
    let content = given.content.and(held.content);
    Row {
        rev,
        parent,
        content,
    }
}

// Adds to document d what the row gives and the document lacks. Its rows stand at `body`, and
// afterwards at what is answered.
pub fn learn_row(b: &mut [u8], d: usize, body: Body, row: Row) -> Body
    requires { CanLearn b.old d body (meaning row) }
    ensures { Learnt b.old d (meaning row) result b.new }
{
    let rev = row.rev;
    match find(b, body, rev) {
        Ok(i) => {
            let held = row_at(b, body, i);
            put_row(b, body.base + i * ROW, merged(held, row));
            body
        }
        Err(i) => {
            insert_row_in(b, d, body, i, row);
            Body {
                base: body.base,
                rows: body.rows + 1,
            }
        }
    }
}
