// 24: the sequences.
ghost use Rattle.std.specs.Prelude.{◌≡◌, ◌||◌, ◌≤◌, max, eqb, length};
ghost use Rattle.rules.specs.Choice.{any};
ghost use Rattle.rules.specs.Faults.{bad_sequence};
ghost use Rattle.layout.specs.Fields.{entry_place};
ghost use Rattle.faults.specs.Places.{Headed, seqs_before};

use layout::entry::own;
use layout::head::{documents, sequence};
use layout::{ENTRY, HEAD};
use rules::Seq;

// The own sequence of entry i, which is q, is 0 or one of those before it.
fn own_bad(s: &[u8], i: usize, q: Seq) -> bool
    requires { entry_place i ≤ length s.now }
    ensures { result ≡ (eqb q.0 0 || any (eqb q.0) (seqs_before i s.now)) }
{
    q.0 == 0 || (0..i).any(|j| q.0 == own(s, HEAD + ENTRY * j).0)
}

pub(crate) fn sequence_fault(s: &[u8]) -> Option<usize>
    requires { Headed s.now }
    ensures { result ≡ bad_sequence s.now }
{
    let d = documents(s);
    let mut most = 0;
    for i in 0..d {
        let q = own(s, HEAD + ENTRY * i);
        if own_bad(s, i, q) {
            return Some(i);
        }
        most = most.max(q.0);
    }
    (most != sequence(s).0).then_some(d)
}
