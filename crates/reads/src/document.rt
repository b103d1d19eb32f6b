// The reads of one document: its winner, its leaves, a path, and which of the asked revisions it lacks.
ghost use Rattle.std.specs.Prelude.{◌≡◌, [], ◌+◌, ◌≤◌, length};
ghost use Rattle.rules.specs.Bytes.{part};
ghost use Rattle.rules.specs.Outcome.{Does};
ghost use Rattle.rules.specs.Read.{asked_size, asked_rev, read_winner, read_leaves, read_path, read_missing};
ghost use Rattle.tree.specs.Table.{tree_in, Searchable};
ghost use Rattle.store.specs.Storage.{replica_of, IsStored};
ghost use Rattle.reads.specs.Reads.{CanRead, IdChecked, Opens, missing_of, winner_in, leaves_in, path_in, reading_after, CanPutMissing, MissingPut};

use octets::number::get4;
use octets::run::get_hash;
use rules::{HASH, Refusal, RevNumber, Revision};
use store::read::{bad_id, body_of, body_of_id, find_document};
use tree::leaf::{LEAF, leaf_count, put_leaf, put_leaves, winner_of};
use tree::path::{path_count, put_path};
use tree::table::{Body, is_missing};

// An asked revision: its number, and where its hash begins and ends.
const ASKED_HASH_IN: usize = 4;

const ASKED: usize = ASKED_HASH_IN + HASH;

// "1", which every read of a document checks first.
fn check_id(id: &[u8]) -> Result<(), Refusal>
    ensures { IdChecked id.now result }
{
    if bad_id(id) {
        return Err(Refusal::BadId);
    }
    Ok(())
}

// The rows of a document. "Reads of a document check 1, 12".
pub fn rows_of(b: &[u8], id: &[u8]) -> Result<Body, Refusal>
    requires { IsStored b.now }
    ensures { Opens b.now id.now result }
{
    check_id(id)?;
    let Ok(d) = find_document(b, id) else {
        return Err(Refusal::NoDocument);
    };
    Ok(body_of(b, d))
}

// The winner among the rows. A tree has one, so no call answers 0.
fn answer_winner(b: &[u8], body: Body, out: &mut [u8]) -> Result<usize, Refusal>
    requires { CanRead body b.now }
    ensures { Does (reading_after [] (winner_in (tree_in body b.now)) out.old) result out.new }
{
    let Some(leaf) = winner_of(b, body) else {
        return Ok(0);
    };
    if out.len() < LEAF {
        return Err(Refusal::ShortBuffer);
    }
    put_leaf(out, 0, leaf);
    Ok(LEAF)
}

// The leaves among the rows.
fn answer_leaves(b: &[u8], body: Body, out: &mut [u8]) -> Result<usize, Refusal>
    requires { CanRead body b.now }
    ensures { Does (reading_after [] (leaves_in (tree_in body b.now)) out.old) result out.new }
{
    let count = leaf_count(b, body);
    if out.len() < count * LEAF {
        return Err(Refusal::ShortBuffer);
    }
    put_leaves(b, body, out);
    Ok(count)
}

// The path of a revision among the rows. It is counted before the first hash is written.
fn answer_path(b: &[u8], body: Body, rev: Revision, out: &mut [u8]) -> Result<usize, Refusal>
    requires { CanRead body b.now }
    ensures { Does (reading_after [] (path_in rev (tree_in body b.now)) out.old) result out.new }
{
    if is_missing(b, body, rev) {
        return Err(Refusal::NoRevision);
    }
    let hashes = path_count(b, body, rev);
    if out.len() < hashes * HASH {
        return Err(Refusal::ShortBuffer);
    }
    put_path(b, body, rev, out, 0);
    Ok(hashes)
}

// Writes the winner's 29 bytes.
pub fn winner(b: &[u8], id: &[u8], out: &mut [u8]) -> Result<usize, Refusal>
    requires { IsStored b.now }
    ensures { Does (read_winner (replica_of b.now) id.now out.old) result out.new }
{
    answer_winner(b, rows_of(b, id)?, out)
}

// Writes every leaf, the highest first, and answers their count.
pub fn leaves(b: &[u8], id: &[u8], out: &mut [u8]) -> Result<usize, Refusal>
    requires { IsStored b.now }
    ensures { Does (read_leaves (replica_of b.now) id.now out.old) result out.new }
{
    answer_leaves(b, rows_of(b, id)?, out)
}

// Writes the hashes of a revision's path, newest first, and answers their count.
pub fn path(b: &[u8], id: &[u8], rev: Revision, out: &mut [u8]) -> Result<usize, Refusal>
    requires { IsStored b.now }
    ensures { Does (read_path (replica_of b.now) id.now rev out.old) result out.new }
{
    answer_path(b, rows_of(b, id)?, rev, out)
}

// The asked revision that these bytes are.
fn asked_rev(asked: &[u8]) -> Revision
    requires { length asked.now ≡ asked_size }
    ensures { result ≡ asked_rev asked.now }
{
    Revision {
        number: RevNumber(get4(asked, 0)),
        hash: get_hash(asked, ASKED_HASH_IN),
    }
}

// 0 known, 1 missing.
fn missing_byte(b: &[u8], body: Body, rev: Revision) -> u8
    requires { Searchable body b.now }
    ensures { result ≡ missing_of (tree_in body b.now) rev }
{
    if is_missing(b, body, rev) { 1 } else { 0 }
}

// Writes a byte for each asked revision. By its index: behind a `zip` with out's bytes the library says nothing
// of what is written.
fn put_missing(b: &[u8], body: Body, asked: &[u8], out: &mut [u8])
    requires { CanPutMissing body b.now asked.now out.old }
    ensures { MissingPut (tree_in body b.now) asked.now out.old out.new }
{
    for (i, rev) in asked.chunks_exact(ASKED).enumerate() {
        out[i] = missing_byte(b, body, asked_rev(rev));
    }
}

// Writes a byte for each asked revision, 0 known and 1 missing, and answers their count.
pub fn missing(b: &[u8], id: &[u8], asked: &[u8], out: &mut [u8]) -> Result<usize, Refusal>
    requires { IsStored b.now }
    ensures { Does (read_missing (replica_of b.now) id.now asked.now out.old) result out.new }
{
    check_id(id)?;
    if asked.len() % ASKED != 0 {
        return Err(Refusal::BadAsked);
    }
    let revisions = asked.len() / ASKED;
    if out.len() < revisions {
        return Err(Refusal::ShortBuffer);
    }
    let body = body_of_id(b, id);
    put_missing(b, body, asked, out);
    Ok(revisions)
}
