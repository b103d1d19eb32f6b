// One number for each outcome.
ghost use Rattle.std.specs.Prelude.{◌≡◌, ◌+◌, ◌*◌, ◌≤◌};
ghost use Rattle.rules.specs.Answer.{refused, written_number, edited_number, answered_number, loaded_number};
ghost use Rattle.refile.specs.Boundary.{result_number, content_from, RefusalOf, SmallPlace, lent_house};
ghost use Rattle.refile.specs.House.{House, house_number};

use faults::fault_number;
use layout::SIZE;
use octets::number::get2;
use rules::{Content, Fault, Outcome, Refusal, RevNumber};

// The house refusals, each with its number: what this boundary can get and the rules have no number for.
#[derive(Clone, Copy)]
pub(crate) enum HouseRefusal {
    BadReplica = 100,
    BadKind = 101,
    BadLabel = 102,
    BadFlag = 103,
    BadHash = 104,
    BadNoParent = 105,
    BadStart = 106,
}

// The kinds of content, as in an image row.
pub(crate) const LIVE: u32 = 1;

pub(crate) const DELETED: u32 = 2;

// An answer buffer that is too short.
pub(crate) const SHORT_ANSWER: u64 = 14;

// The house refusals of a buffer that is lent as a replica.
pub(crate) fn check_replica(replica: &[u8]) -> Result<(), HouseRefusal>
    ensures { House (lent_house replica.now) result }
{
    if replica.len() != SIZE {
        return Err(HouseRefusal::BadReplica);
    }
    if get2(replica, 0) != 0 {
        return Err(HouseRefusal::BadStart);
    }
    Ok(())
}

// The number of a refusal.
pub(crate) fn refusal_number(r: Refusal) -> u64
    ensures { RefusalOf r result }
{
    match r {
        Refusal::BadId => 1,
        Refusal::BadPath => 2,
        Refusal::LowNumber => 3,
        Refusal::OtherParent => 4,
        Refusal::OtherContent => 5,
        Refusal::DocumentsFull => 6,
        Refusal::RevisionsFull => 7,
        Refusal::SequenceSpent => 8,
        Refusal::NotAParent => 9,
        Refusal::AlreadyKnown => 10,
        Refusal::LastNumber => 11,
        Refusal::NoDocument => 12,
        Refusal::NoRevision => 13,
        Refusal::ShortBuffer => 14,
        Refusal::BadAsked => 15,
        Refusal::NotJson => 40,
        Refusal::BadMember => 41,
        Refusal::OtherRevisions => 42,
        Refusal::UnwritableId => 43,
    }
}

// A refusal with no place.
pub(crate) fn refused(n: u64) -> u64
    requires { (1 ≤ n) × (n ≤ 106) }
    ensures { result ≡ result_number (refused n) }
{
    9223372036854775808 + n * 4294967296
}

// A call that the house refuses. C gets a number and no Result, so that none of the calls that it sees can
// hand a refusal on by `?`.
pub(crate) fn unfit(x: HouseRefusal) -> u64
    ensures { result ≡ result_number (refused (house_number x)) }
{
    refused(x as u64)
}

// A function for each answer: a trait with its law for these three is longer, and no plainer.
pub(crate) fn written(a: Result<Outcome, Refusal>) -> u64
    ensures { result ≡ result_number (written_number a) }
{
    match a {
        Ok(Outcome::Changed) => 1,
        Ok(Outcome::Unchanged) => 0,
        Err(n) => refused(refusal_number(n)),
    }
}

pub(crate) fn edited(a: Result<RevNumber, Refusal>) -> u64
    ensures { result ≡ result_number (edited_number a) }
{
    match a {
        Ok(n) => n.0 as u64,
        Err(n) => refused(refusal_number(n)),
    }
}

pub(crate) fn answered(a: Result<usize, Refusal>) -> u64
    ensures { result ≡ result_number (answered_number a) }
{
    match a {
        Ok(n) => n as u64,
        Err(n) => refused(refusal_number(n)),
    }
}

// An image's refusal has its place in the lower half.
pub(crate) fn loaded(a: Result<(), (Fault, usize)>) -> u64
    requires { SmallPlace a }
    ensures { result ≡ result_number (loaded_number a) }
{
    match a {
        Ok(()) => 0,
        Err((f, place)) => refused(fault_number(f) as u64) + (place as u64),
    }
}

// The content that a kind and a label are: any kind but live is a deletion.
pub(crate) fn content_from(kind: u32, label: u64) -> Content
    ensures { result ≡ content_from kind label }
{
    if kind == LIVE {
        return Content::Live(label);
    }
    Content::Deleted
}
