// The refusals 4 to 8, from a plan.
ghost use Rattle.std.specs.Prelude.{◌≡◌, not, ◌&&◌, ◌+◌, ◌≤◌, eqb, leb, ltb, length};
ghost use Rattle.rules.specs.Choice.{first_that};
ghost use Rattle.rules.specs.Replica.{revisions_held};
ghost use Rattle.rules.specs.Room.{documents_most, revisions_most, hashes_most, seq_most};
ghost use Rattle.store.specs.Storage.{replica_of, Laid};
ghost use Rattle.store.specs.Documents.{documents_of};
ghost use Rattle.writes.specs.Judge.{is_absent, judged};
ghost use Rattle.writes.specs.Verdict.{verdict_of};

use crate::plan::Plan;
use rules::{DOCUMENTS, REVISIONS, Refusal, SEQ_MOST};
use store::read::{documents_held, revisions_held, update_sequence};

// 6: the document is absent and 32 documents are held.
fn documents_full(b: &[u8], found: Result<usize, usize>) -> bool
    requires { Laid b.now }
    ensures { result ≡ (is_absent found && leb documents_most (length (documents_of b.now))) }
{
    found.is_err() && DOCUMENTS <= documents_held(b)
}

// 7: revisions held plus new ones exceed 512.
fn revisions_full(b: &[u8], new: usize) -> bool
    requires { Laid b.now × (new ≤ hashes_most) }
    ensures { result ≡ ltb revisions_most (revisions_held (documents_of b.now) + new) }
{
    let held = revisions_held(b);
    REVISIONS < held + new
}

// 8: something would be added and the sequence is 4,294,967,295.
fn sequence_spent(b: &[u8], reach: usize) -> bool
    requires { Laid b.now }
    ensures { result ≡ (not (eqb reach 0) && eqb (replica_of b.now).seq.0 seq_most) }
{
    if reach == 0 {
        return false;
    }
    let q = update_sequence(b);
    q.0 == SEQ_MOST
}

// 4 to 8, in that order.
pub(crate) fn judge(b: &[u8], found: Result<usize, usize>, p: Plan) -> Result<(), Refusal>
    requires { Laid b.now × (p.revisions ≤ hashes_most) }
    ensures { result ≡ verdict_of (first_that (judged (replica_of b.now) (is_absent found) p)) }
{
    if p.crossed {
        return Err(Refusal::OtherParent);
    }
    if p.other {
        return Err(Refusal::OtherContent);
    }
    if documents_full(b, found) {
        return Err(Refusal::DocumentsFull);
    }
    if revisions_full(b, p.revisions) {
        return Err(Refusal::RevisionsFull);
    }
    if sequence_spent(b, p.reach) {
        return Err(Refusal::SequenceSpent);
    }
    Ok(())
}
