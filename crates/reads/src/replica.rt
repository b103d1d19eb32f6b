// The reads of a whole replica: its changes after a sequence, its update sequence and its counts.
ghost use Rattle.std.specs.Prelude.{◌≡◌};
ghost use Rattle.rules.specs.Outcome.{Does};
ghost use Rattle.rules.specs.Read.{read_changes, held_in};
ghost use Rattle.tree.specs.Table.{tree_in, Searchable};
ghost use Rattle.store.specs.Storage.{replica_of, IsStored};
ghost use Rattle.reads.specs.Next.{sooner, IsNext, HasTree, change_read, deletion_wins};

use octets::run::copy_in;
use rules::{Change, Content, Held, Refusal, Seq};
use store::read::{body_of, documents_held, id_of, own_sequence, revisions_held, update_sequence};
use tree::leaf::{leaf_count, winner_of};
use tree::table::Body;

// Document d, whose own sequence is q, where that is above `after` and not above what was found; else
// what was found.
fn earlier(after: Seq, d: usize, q: Seq, found: Option<(usize, Seq)>) -> Option<(usize, Seq)>
    ensures { result ≡ sooner after d q found }
{
    if q.0 <= after.0 {
        return found;
    }
    match found {
        Some((_, p)) if p.0 < q.0 => found,
        _ => Some((d, q)),
    }
}

// The document with the lowest own sequence above `after`.
pub fn next_after(b: &[u8], after: Seq) -> Option<(usize, Seq)>
    requires { IsStored b.now }
    ensures { IsNext after 0 (replica_of b.now).documents result }
{
    let mut found = None;
    for d in (0..documents_held(b)).rev() {
        found = earlier(after, d, own_sequence(b, d), found);
    }
    found
}

// Whether the winner among the rows is a deletion.
fn deletion_wins(b: &[u8], body: Body) -> bool
    requires { Searchable body b.now }
    ensures { result ≡ deletion_wins (tree_in body b.now) }
{
    let Some(leaf) = winner_of(b, body) else {
        return false;
    };
    match leaf.content {
        Content::Live(_) => false,
        Content::Deleted => true,
    }
}

// Writes document d's id, and answers what changed.
fn answer_change(b: &[u8], d: usize, out: &mut [u8]) -> Result<Option<Change>, Refusal>
    requires { HasTree b.now d }
    ensures { Does (change_read b.now d out.old) result out.new }
{
    let id = id_of(b, d);
    let id_len = id.len();
    if out.len() < id_len {
        return Err(Refusal::ShortBuffer);
    }
    copy_in(out, 0, id);
    let body = body_of(b, d);
    let seq = own_sequence(b, d);
    let leaves = leaf_count(b, body);
    let deleted = deletion_wins(b, body);
    Ok(Some(Change {
        id_len,
        seq,
        leaves,
        deleted,
    }))
}

// Writes the id of the document with the lowest own sequence above `after`, and answers what changed.
pub fn changes(b: &[u8], after: Seq, out: &mut [u8]) -> Result<Option<Change>, Refusal>
    requires { IsStored b.now }
    ensures { Does (read_changes (replica_of b.now) after out.old) result out.new }
{
    let Some((d, _)) = next_after(b, after) else {
        return Ok(None);
    };
    answer_change(b, d, out)
}

pub fn sequence(b: &[u8]) -> Seq
    requires { IsStored b.now }
    ensures { result ≡ (replica_of b.now).seq }
{
    update_sequence(b)
}

// How many documents and revisions are held.
pub fn counts(b: &[u8]) -> Held
    requires { IsStored b.now }
    ensures { result ≡ held_in (replica_of b.now) }
{
    let documents = documents_held(b);
    let revisions = revisions_held(b);
    Held {
        documents,
        revisions,
    }
}
