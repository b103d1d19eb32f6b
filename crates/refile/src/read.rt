// The calls that read: each leaves the replica as it was.
ghost use Rattle.std.specs.Prelude.{◌≡◌, ◌≤◌, length};
ghost use Rattle.rules.specs.Answer.{accepted};
ghost use Rattle.rules.specs.Choice.{maybe};
ghost use Rattle.rules.specs.Read.{front, first_of, documents_after};
ghost use Rattle.store.specs.Documents.{documents_of};
ghost use Rattle.store.specs.Storage.{IsStored};
ghost use Rattle.refile.specs.Boundary.{Lent, Calls, result_number, short_answer, change_bytes, winner_call, leaves_call, path_call, missing_call, put_out_call, put_out_size_call, changes_call, sequence_call, counts_call, report_call};

use crate::answer::put_numbers;
use crate::number::{
    HouseRefusal, SHORT_ANSWER, answered, check_replica, refusal_number, refused, unfit,
};
use octets::run::get_hash;
use puts::{put_out, put_out_size};
use reads::document::{leaves, missing, path, winner};
use reads::replica::{changes, counts, next_after, sequence};
use report::report;
use rules::{Change, HASH, RevNumber, Revision, Seq};

// What changes and counts write to their answer.
const CHANGES: usize = 16;

const COUNTS: usize = 8;

pub fn refile_winner(replica: &[u8], id: &[u8], out: &mut [u8]) -> u64
    requires { Lent replica.now }
    ensures { Calls (winner_call replica.now id.now out.old) result out.new }
{
    if let Err(x) = check_replica(replica) {
        return unfit(x);
    }
    answered(winner(replica, id, out))
}

pub fn refile_leaves(replica: &[u8], id: &[u8], out: &mut [u8]) -> u64
    requires { Lent replica.now }
    ensures { Calls (leaves_call replica.now id.now out.old) result out.new }
{
    if let Err(x) = check_replica(replica) {
        return unfit(x);
    }
    answered(leaves(replica, id, out))
}

pub fn refile_path(replica: &[u8], id: &[u8], number: u32, hash: &[u8], out: &mut [u8]) -> u64
    requires { Lent replica.now }
    ensures { Calls (path_call replica.now id.now number hash.now out.old) result out.new }
{
    if let Err(x) = check_replica(replica) {
        return unfit(x);
    }
    if hash.len() != HASH {
        return unfit(HouseRefusal::BadHash);
    }
    let rev = Revision {
        number: RevNumber(number),
        hash: get_hash(hash, 0),
    };
    answered(path(replica, id, rev, out))
}

pub fn refile_missing(replica: &[u8], id: &[u8], asked: &[u8], out: &mut [u8]) -> u64
    requires { Lent replica.now }
    ensures { Calls (missing_call replica.now id.now asked.now out.old) result out.new }
{
    if let Err(x) = check_replica(replica) {
        return unfit(x);
    }
    answered(missing(replica, id, asked, out))
}

pub fn refile_update_sequence(replica: &[u8]) -> u64
    requires { Lent replica.now }
    ensures { Calls (sequence_call replica.now) result tt }
{
    if let Err(x) = check_replica(replica) {
        return unfit(x);
    }
    let q = sequence(replica);
    q.0 as u64
}

pub fn refile_counts(replica: &[u8], answer: &mut [u8]) -> u64
    requires { Lent replica.now }
    ensures { Calls (counts_call replica.now answer.old) result answer.new }
{
    if let Err(x) = check_replica(replica) {
        return unfit(x);
    }
    if answer.len() < COUNTS {
        return refused(SHORT_ANSWER);
    }
    let held = counts(replica);
    let ns = [held.documents, held.revisions];
    put_numbers(answer, &ns);
    0
}

// Writes what changed.
fn put_change(c: Change, answer: &mut [u8])
    requires { 16 ≤ length answer.old }
    ensures { answer.new ≡ front (change_bytes c) answer.old }
{
    let q = c.seq;
    let ns = [c.id_len, q.0 as usize, c.leaves, c.deleted as usize];
    put_numbers(answer, &ns);
}

// An answer buffer that is too short is refused, except where there is no more to answer.
fn short_changes(replica: &[u8], after: Seq) -> u64
    requires { IsStored replica.now }
    ensures { result ≡ result_number (maybe (accepted 0) (λ _. short_answer) (first_of (documents_after after (documents_of replica.now)))) }
{
    match next_after(replica, after) {
        None => 0,
        Some((_, _)) => refused(SHORT_ANSWER),
    }
}

pub fn refile_put_out(replica: &[u8], id: &[u8], out: &mut [u8]) -> u64
    requires { Lent replica.now }
    ensures { Calls (put_out_call replica.now id.now out.old) result out.new }
{
    if let Err(x) = check_replica(replica) {
        return unfit(x);
    }
    answered(put_out(replica, id, out))
}

pub fn refile_put_out_size(replica: &[u8], id: &[u8]) -> u64
    requires { Lent replica.now }
    ensures { Calls (put_out_size_call replica.now id.now) result tt }
{
    if let Err(x) = check_replica(replica) {
        return unfit(x);
    }
    answered(put_out_size(replica, id))
}

pub fn refile_changes(replica: &[u8], after: u32, out: &mut [u8], answer: &mut [u8]) -> u64
    requires { Lent replica.now }
    ensures { Calls (changes_call replica.now after out.old answer.old) result (out.new, answer.new) }
{
    if let Err(x) = check_replica(replica) {
        return unfit(x);
    }
    if answer.len() < CHANGES {
        return short_changes(replica, Seq(after));
    }
    match changes(replica, Seq(after), out) {
        Ok(Some(c)) => {
            put_change(c, answer);
            1
        }
        Ok(None) => 0,
        Err(n) => refused(refusal_number(n)),
    }
}

pub fn refile_report(image: &[u8], out: &mut [u8]) -> u64
    ensures { Calls (report_call image.now out.old) result out.new }
{
    answered(report(image, out))
}
