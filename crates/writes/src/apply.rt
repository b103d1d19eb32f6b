// Applying a plan that no rule refuses. It cannot fail.
ghost use Rattle.std.specs.Prelude.{◌≡◌, ◌<◌, take};
ghost use Rattle.rules.specs.Write.{next};
ghost use Rattle.store.specs.Change.{with_seq, with_tree, Holds};
ghost use Rattle.store.specs.Storage.{replica_of};
ghost use Rattle.writes.specs.Path.{gives_of, add_last};
ghost use Rattle.writes.specs.Apply.{CanApply};

use crate::path::given;
use rules::{Content, RevNumber, Seq};
use store::change::{learn_row, set_sequences};
use store::read::update_sequence;
use tree::table::Body;

// Adds the m newest revisions of the path to document d, the oldest of them first, so that a history
// grows at its end; the sequence rises by one, and the document takes the new value.
pub(crate) fn apply(
    b: &mut [u8],
    d: usize,
    body: Body,
    number: RevNumber,
    path: &[u8],
    content: Content,
    m: usize,
)
    requires { CanApply b.old d body number path.now content m }
    ensures { Holds (with_seq d (next (replica_of b.old).seq) (with_tree d (add_last (take m (gives_of number path.now content))) (replica_of b.old))) b.new }
{
    let q = update_sequence(b);
    let mut place = body;
    for k in (0..m).rev() {
        place = learn_row(b, d, place, given(path, number, content, k));
    }
    set_sequences(b, d, Seq(q.0 + 1));
}
