// Writes: the path write, over a replica in a lent buffer.
// A read-only pass over the path plans the write and decides every refusal; then it is applied, which
// cannot fail. So a refused or unchanged write leaves every byte. It uses the crates rules, octets,
// layout, tree, store and union.
#![tactic(auto)]

ghost use Rattle.store.specs.Storage.{IsStored};
ghost use Rattle.writes.specs.Judge.{Wrote};
ghost use Rattle.writes.specs.Path.{write_of};

use crate::form::form;
use crate::settle::write_to;
use rules::{Content, Outcome, Refusal, RevNumber};
use store::read::find_document;

mod apply;
mod form;
mod judge;
mod path;
mod plan;
pub mod settle;

// The path write: any id, any number, any bytes as a path, any content.
pub fn write(
    b: &mut [u8],
    id: &[u8],
    number: RevNumber,
    path: &[u8],
    content: Content,
) -> Result<Outcome, Refusal>
    requires { IsStored b.old }
    ensures { Wrote b.old (write_of id.now number path.now content) result b.new }
{
    form(id, number, path)?;
    let found = find_document(b, id);
    write_to(b, found, id, number, path, content)
}
