// What a path gives, hash by hash.
ghost use Rattle.std.specs.Prelude.{◌≡◌};
ghost use Rattle.tree.specs.Rows.{meaning};
ghost use Rattle.writes.specs.Path.{content_at, rev_at, given_at, InPath};

use octets::run::get_hash;
use rules::{Content, HASH, RevNumber, Revision};
use tree::row::Row;

// The k-th revision after the newest.
fn rev_at(path: &[u8], number: RevNumber, k: usize) -> Revision
    requires { InPath path.now number.0 k }
    ensures { result ≡ rev_at number.0 path.now k }
{
    let at = k * HASH;
    let hash = get_hash(path, at);
    Revision {
        number: RevNumber(number.0 - (k as u32)),
        hash,
    }
}

// Only the newest is given a content: the others have a child.
fn kind_at(content: Content, k: usize) -> Option<Content>
    ensures { result ≡ content_at content k }
{
    (k == 0).then_some(content)
}

// What the path gives for its k-th hash, as a row.
pub(crate) fn given(path: &[u8], number: RevNumber, content: Content, k: usize) -> Row
    requires { InPath path.now number.0 k }
    ensures { meaning result ≡ given_at number.0 path.now content k }
{
    let rev = rev_at(path, number, k);
    let content = kind_at(content, k);
    let next = k + 1;
    if next < path.len() / HASH {
        let parent = Some(get_hash(path, next * HASH));
        return Row {
            rev,
            parent,
            content,
        };
    }
    Row {
        rev,
        parent: None,
        content,
    }
}
