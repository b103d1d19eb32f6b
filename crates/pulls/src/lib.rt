// Pulls: one replica read into another, both in buffers that the caller lends.
// Every leaf of the source's documents after a sequence is offered to the target with its whole known
// path, and what became of each offer is counted. It uses the crates rules, octets, union, tree,
// store, reads and writes.
#![tactic(auto)]

ghost use Rattle.std.specs.Prelude.{◌≡◌, ◌<◌, Err, Ok};
ghost use Rattle.rules.specs.declared.Refusal.{Refusal};
ghost use Rattle.rules.specs.Pull.{offer, offers_of, count};
ghost use Rattle.rules.specs.Room.{revisions_most};
ghost use Rattle.union.specs.Said.{total};
ghost use Rattle.tree.specs.Leaf.{leaf_of};
ghost use Rattle.tree.specs.Table.{tree_in};
ghost use Rattle.store.specs.Storage.{IsStored};
ghost use Rattle.store.specs.Documents.{documents_of, document_at};
ghost use Rattle.writes.specs.Judge.{Wrote};
ghost use Rattle.writes.specs.Path.{write_of};
ghost use Rattle.pulls.specs.Pulls.{CanPull, Pulled, Offered, Made, CanOffer, CanOfferAll};

use reads::replica::next_after;
use rules::{Content, Counts, HASH, Outcome, PATH_HASHES, Refusal, Revision, Seq};
use store::read::{body_of, id_of};
use tree::path::put_path;
use tree::table::{Body, kind_at, rev_at};
use writes::write;

// The bytes of the longest path.
const PATH: usize = PATH_HASHES * HASH;

// The counts with one more accepted offer.
fn count_accepted(c: Counts, outcome: Outcome) -> Counts
    requires { total c < revisions_most }
    ensures { result ≡ count (Ok outcome) c }
{
    match outcome {
        Outcome::Changed => Counts {
            changed: c.changed + 1,
            ..c
        },
        Outcome::Unchanged => Counts {
            unchanged: c.unchanged + 1,
            ..c
        },
    }
}

// The counts with one more refused offer. It and the former stand apart, since the rules name the `let else`
// whose other branch counts the refusal.
fn count_refused(c: Counts) -> Counts
    requires { total c < revisions_most }
    ensures { (n : Refusal) → result ≡ count (Err n) c }
{
    Counts {
        refused: c.refused + 1,
        ..c
    }
}

// One offer to the target, made also where the target knows the leaf.
fn offer(
    target: &mut [u8],
    id: &[u8],
    rev: Revision,
    path: &[u8],
    content: Content,
) -> Result<Outcome, Refusal>
    requires { IsStored target.old }
    ensures { Wrote target.old (write_of id.now rev.number path.now content) result target.new }
{
    write(target, id, rev.number, path, content)
}

// Offers one leaf with its whole path, whose hashes stand in `path` meanwhile.
fn offer_leaf(
    target: &mut [u8],
    source: &[u8],
    body: Body,
    id: &[u8],
    rev: Revision,
    content: Content,
    path: &mut [u8],
) -> Result<Outcome, Refusal>
    requires { CanOffer source.now body rev target.old path.old }
    ensures { Made (offer id.now (tree_in body source.now) (leaf_of rev content)) target.old path.old result target.new path.new }
{
    let end = put_path(source, body, rev, path, 0);
    offer(target, id, rev, &path[..end], content)
}

// Offers the leaves of document d, the highest first. A refused offer is counted, and the next leaf
// follows.
fn offer_document(
    target: &mut [u8],
    source: &[u8],
    d: usize,
    counts: Counts,
    path: &mut [u8],
) -> Counts
    requires { CanOfferAll source.now d counts target.old path.old }
    ensures { Offered (offers_of (document_at (documents_of source.now) d)) counts target.old path.old result target.new path.new }
{
    let id = id_of(source, d);
    let body = body_of(source, d);
    let mut c = counts;
    for i in (0..body.rows).rev() {
        if let Some(content) = kind_at(source, body, i) {
            let rev = rev_at(source, body, i);
            let Ok(outcome) = offer_leaf(target, source, body, id, rev, content, path) else {
                c = count_refused(c);
                continue;
            };
            c = count_accepted(c, outcome);
        }
    }
    c
}

// Offers every leaf of the source's documents after a sequence to the target, documents in the order
// of their own sequence, and counts what became of the offers.
pub fn pull(target: &mut [u8], source: &[u8], after: Seq) -> Counts
    requires { CanPull source.now target.old }
    ensures { Pulled after source.now target.old result target.new }
{
    let mut path = [0u8; PATH];
    let mut s = after;
    let mut counts = Counts {
        changed: 0,
        unchanged: 0,
        refused: 0,
    };
    while let Some((d, q)) = next_after(source, s) {
        s = q;
        counts = offer_document(target, source, d, counts, &mut path);
    }
    counts
}
