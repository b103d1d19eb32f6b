// The parent that an edit takes, and the rule on it.
ghost use Rattle.std.specs.Prelude.{◌≡◌};
ghost use Rattle.rules.specs.Edit.{Edit, is_leaf, deleted_winner, parent_of, parent_rule, last_number, new_number};
ghost use Rattle.rules.specs.Replica.{Replica};
ghost use Rattle.tree.specs.Table.{tree_in, Searchable};
ghost use Rattle.store.specs.Storage.{replica_of};
ghost use Rattle.edits.specs.Edit.{IsOn, IsRuled, NotLast};

use rules::{Content, NUMBER_MOST, RevNumber, Revision};
use tree::leaf::winner_of;
use tree::table::{Body, find, kind_at};

// The winner among the rows, if it is a deletion.
fn deleted_winner(b: &[u8], body: Body) -> Option<Revision>
    requires { Searchable body b.now }
    ensures { result ≡ deleted_winner (tree_in body b.now) }
{
    let leaf = winner_of(b, body)?;
    match leaf.content {
        Content::Live(_) => None,
        Content::Deleted => Some(leaf.rev),
    }
}

// The parent that is named, else the winner that is a deletion.
pub(crate) fn parent_of(b: &[u8], body: Body, named: Option<Revision>) -> Option<Revision>
    requires { Searchable body b.now }
    ensures { (e : Edit) → IsOn b.now body named e → result ≡ parent_of (replica_of b.now) e }
{
    match named {
        Some(_) => named,
        None => deleted_winner(b, body),
    }
}

// Whether a revision is a leaf among the rows, live or deleted.
fn is_leaf(b: &[u8], body: Body, rev: Revision) -> bool
    requires { Searchable body b.now }
    ensures { result ≡ is_leaf (tree_in body b.now) rev }
{
    match find(b, body, rev) {
        Ok(i) => kind_at(b, body, i).is_some(),
        Err(_) => false,
    }
}

// 9: the parent rule, where `taken` is the parent that the edit takes.
pub(crate) fn rule_met(
    b: &[u8],
    body: Body,
    content: Content,
    named: Option<Revision>,
    taken: Option<Revision>,
) -> bool
    requires { Searchable body b.now }
    ensures { (e : Edit) → IsRuled b.now body content named taken e → result ≡ parent_rule (replica_of b.now) e }
{
    if let Some(parent) = named {
        return is_leaf(b, body, parent);
    }
    match content {
        Content::Live(_) => body.rows == 0 || taken.is_some(),
        Content::Deleted => false,
    }
}

// 11: the parent's number is 4,294,967,295.
pub(crate) fn last_number(parent: Option<Revision>) -> bool
    ensures { (x : Replica) (e : Edit) → parent ≡ parent_of x e → result ≡ last_number x e }
{
    match parent {
        Some(rev) => rev.number.0 == NUMBER_MOST,
        None => false,
    }
}

// One above the parent's number; 1 where there is none.
pub(crate) fn next_number(parent: Option<Revision>) -> RevNumber
    requires { NotLast parent }
    ensures { (x : Replica) (e : Edit) → parent ≡ parent_of x e → result ≡ new_number x e }
{
    match parent {
        Some(rev) => RevNumber(rev.number.0 + 1),
        None => RevNumber(1),
    }
}
