// The calls that make, load, save and change a replica.
ghost use Rattle.std.specs.Prelude.{◌≡◌, [], ◌∷◌, length};
ghost use Rattle.rules.specs.Replica.{revision};
ghost use Rattle.rules.specs.Room.{hash_size};
ghost use Rattle.refile.specs.Boundary.{Calls, Keeps, Lent, bad_kind, bad_label, bad_hash, parent_house, edit_house, parent_from, fresh_call, load_call, save_call, write_call, TakesCall, edit_call, pull_call};
ghost use Rattle.refile.specs.House.{House};

use crate::answer::put_numbers;
use crate::number::{
    DELETED, HouseRefusal, LIVE, SHORT_ANSWER, answered, check_replica, content_from, edited,
    loaded, refused, unfit, written,
};
use codec::{load, save};
use edits::edit;
use layout::SIZE;
use octets::run::get_hash;
use pulls::pull;
use rules::{HASH, RevNumber, Revision, Seq};
use store::change::make_fresh;
use takes::take_in;
use writes::write;

// What pull writes to its answer: three numbers.
const COUNTS: usize = 12;

pub fn refile_fresh(replica: &mut [u8]) -> u64
    ensures { Keeps (fresh_call replica.old) result replica.new replica.new }
{
    if replica.len() != SIZE {
        return unfit(HouseRefusal::BadReplica);
    }
    make_fresh(replica);
    0
}

pub fn refile_load(replica: &mut [u8], image: &[u8]) -> u64
    ensures { Keeps (load_call replica.old image.now) result replica.new replica.new }
{
    if replica.len() != SIZE {
        return unfit(HouseRefusal::BadReplica);
    }
    loaded(load(replica, image))
}

pub fn refile_save(replica: &[u8], out: &mut [u8]) -> u64
    requires { Lent replica.now }
    ensures { Calls (save_call replica.now out.old) result out.new }
{
    if let Err(x) = check_replica(replica) {
        return unfit(x);
    }
    answered(save(replica, out))
}

// The house refusals of a content.
fn check_content(kind: u32, label: u64) -> Result<(), HouseRefusal>
    ensures { House (bad_kind kind ∷ bad_label kind label ∷ []) result }
{
    if kind == LIVE {
        return Ok(());
    }
    if kind != DELETED {
        return Err(HouseRefusal::BadKind);
    }
    if label != 0 {
        return Err(HouseRefusal::BadLabel);
    }
    Ok(())
}

pub fn refile_write(
    replica: &mut [u8],
    id: &[u8],
    number: u32,
    path: &[u8],
    kind: u32,
    label: u64,
) -> u64
    requires { Lent replica.old }
    ensures { Keeps (write_call replica.old id.now number path.now kind label) result replica.new replica.new }
{
    if let Err(x) = check_replica(replica) {
        return unfit(x);
    }
    if let Err(x) = check_content(kind, label) {
        return unfit(x);
    }
    let content = content_from(kind, label);
    written(write(replica, id, RevNumber(number), path, content))
}

pub fn refile_take_in(replica: &mut [u8], line: &[u8]) -> u64
    requires { Lent replica.old }
    ensures { TakesCall replica.old line.now result replica.new }
{
    if let Err(x) = check_replica(replica) {
        return unfit(x);
    }
    written(take_in(replica, line))
}

// A hash that is named has its size.
fn check_hash(hash: &[u8]) -> Result<(), HouseRefusal>
    ensures { House (bad_hash hash.now ∷ []) result }
{
    if hash.len() != HASH {
        return Err(HouseRefusal::BadHash);
    }
    Ok(())
}

// The house refusals of a parent.
fn check_parent(named: u32, number: u32, hash: &[u8]) -> Result<(), HouseRefusal>
    ensures { House (parent_house named number hash.now ∷ []) result }
{
    if named == 1 {
        return check_hash(hash);
    }
    if number != 0 || hash.len() != 0 {
        return Err(HouseRefusal::BadNoParent);
    }
    Ok(())
}

// The house refusals of an edit.
fn check_edit(
    hash: &[u8],
    kind: u32,
    label: u64,
    named: u32,
    number: u32,
    parent: &[u8],
) -> Result<(), HouseRefusal>
    ensures { House (edit_house hash.now kind label named number parent.now) result }
{
    check_content(kind, label)?;
    if 1 < named {
        return Err(HouseRefusal::BadFlag);
    }
    check_hash(hash)?;
    check_parent(named, number, parent)
}

// The revision that is named, if one is.
fn parent_from(named: u32, number: u32, hash: &[u8]) -> Option<Revision>
    requires { named ≡ 1 → length hash.now ≡ hash_size }
    ensures { result ≡ parent_from named (revision number hash.now) }
{
    if named != 1 {
        return None;
    }
    let hash = get_hash(hash, 0);
    Some(Revision {
        number: RevNumber(number),
        hash,
    })
}

pub fn refile_edit(
    replica: &mut [u8],
    id: &[u8],
    hash: &[u8],
    kind: u32,
    label: u64,
    named: u32,
    number: u32,
    parent: &[u8],
) -> u64
    requires { Lent replica.old }
    ensures { Keeps (edit_call replica.old id.now hash.now kind label named number parent.now) result replica.new replica.new }
{
    if let Err(x) = check_replica(replica) {
        return unfit(x);
    }
    if let Err(x) = check_edit(hash, kind, label, named, number, parent) {
        return unfit(x);
    }
    let new = get_hash(hash, 0);
    let content = content_from(kind, label);
    let named = parent_from(named, number, parent);
    edited(edit(replica, id, new, content, named))
}

pub fn refile_pull(target: &mut [u8], source: &[u8], after: u32, answer: &mut [u8]) -> u64
    requires { Lent target.old × Lent source.now }
    ensures { Keeps (pull_call target.old source.now after answer.old) result (target.new, answer.new) target.new }
{
    if let Err(x) = check_replica(target) {
        return unfit(x);
    }
    if let Err(x) = check_replica(source) {
        return unfit(x);
    }
    if answer.len() < COUNTS {
        return refused(SHORT_ANSWER);
    }
    let c = pull(target, source, Seq(after));
    let ns = [c.changed, c.unchanged, c.refused];
    put_numbers(answer, &ns);
    0
}
