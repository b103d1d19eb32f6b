// 22: the head.
ghost use Rattle.std.specs.Prelude.{◌≡◌, ◌≤◌, length};
ghost use Rattle.rules.specs.Faults.{bad_head};
ghost use Rattle.rules.specs.Layout.{head_size};

use layout::head::{documents, head_zero, revisions, total};
use layout::{ENTRY, HEAD, ROW};
use rules::{DOCUMENTS, REVISIONS};

#[tactic(auto, unfolding(rules::specs::Faults::bad_head))]
pub(crate) fn head_bad(s: &[u8]) -> bool
    requires { head_size ≤ length s.now }
    ensures { result ≡ bad_head s.now }
{
    let d = documents(s);
    let r = revisions(s);
    let given = total(s) as usize;
    head_zero(s) != 0
        || DOCUMENTS < d
        || REVISIONS < r
        || given != HEAD + ENTRY * d + ROW * r
        || given != s.len()
}
