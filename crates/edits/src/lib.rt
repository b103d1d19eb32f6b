// Edits: the ordinary edit, over a replica in a lent buffer.
// It finds the parent and decides the refusals that are an edit's own; the rest is the path write. It
// uses the crates rules, octets, union, tree, store and writes.
#![tactic(auto)]

ghost use Rattle.std.specs.Prelude.{◌≡◌, ◌*◌, length};
ghost use Rattle.rules.specs.Room.{hash_size};
ghost use Rattle.store.specs.Storage.{IsStored};
ghost use Rattle.writes.specs.Judge.{CanWrite};
ghost use Rattle.writes.specs.Path.{write_of};
ghost use Rattle.edits.specs.Edit.{edit_of, child_path, PathPut, ChildWritten, EditDone};

use crate::parent::{last_number, next_number, parent_of, rule_met};
use octets::run::put_hash;
use rules::{Content, HASH, Refusal, RevNumber, Revision};
use store::read::{bad_id, body_at, find_document};
use tree::table::is_missing;
use writes::settle::write_to;

mod parent;

// The bytes of the longest path that an edit gives: its own hash and its parent's.
const PATH: usize = 2 * HASH;

// Writes the new hash and its parent's, if it has one, and answers how many bytes they are.
fn put_path(path: &mut [u8], hash: [u8; HASH], parent: Option<Revision>) -> usize
    requires { length path.old ≡ 2 * hash_size }
    ensures { PathPut hash parent result path.new }
{
    put_hash(path, 0, hash);
    match parent {
        Some(rev) => {
            put_hash(path, HASH, rev.hash);
            PATH
        }
        None => HASH,
    }
}

// Makes the path write of the new revision and its parent, and answers the number where it is accepted.
fn write_child(
    b: &mut [u8],
    found: Result<usize, usize>,
    id: &[u8],
    number: RevNumber,
    hash: [u8; HASH],
    parent: Option<Revision>,
    content: Content,
) -> Result<RevNumber, Refusal>
    requires { CanWrite b.old found (write_of id.now number (child_path hash parent) content) }
    ensures { ChildWritten b.old (write_of id.now number (child_path hash parent) content) number result b.new }
{
    let mut path = [0u8; PATH];
    let end = put_path(&mut path, hash, parent);
    write_to(b, found, id, number, &path[..end], content)?;
    Ok(number)
}

// The ordinary edit: any id, any hash, any content, and a parent if one is named.
pub fn edit(
    b: &mut [u8],
    id: &[u8],
    hash: [u8; HASH],
    content: Content,
    named: Option<Revision>,
) -> Result<RevNumber, Refusal>
    requires { IsStored b.old }
    ensures { EditDone b.old (edit_of id.now hash content named) result b.new }
{
    if bad_id(id) {
        return Err(Refusal::BadId);
    }
    let found = find_document(b, id);
    let body = body_at(b, found);
    let parent = parent_of(b, body, named);
    if !rule_met(b, body, content, named, parent) {
        return Err(Refusal::NotAParent);
    }
    if last_number(parent) {
        return Err(Refusal::LastNumber);
    }
    let number = next_number(parent);
    let rev = Revision { number, hash };
    if !is_missing(b, body, rev) {
        return Err(Refusal::AlreadyKnown);
    }
    write_child(b, found, id, number, hash, parent, content)
}
