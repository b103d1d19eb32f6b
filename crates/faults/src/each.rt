// 25 and 26 over the rows of each document.
ghost use Rattle.std.specs.Prelude.{◌≡◌};
ghost use Rattle.rules.specs.Faults.{first_true};
ghost use Rattle.faults.specs.Places.{rows_in};
ghost use Rattle.faults.specs.Each.{Rule, tests, rule_fault, CanTest, CanPass};

use layout::entry::rows;
use layout::head::documents;
use layout::{ENTRY, HEAD, ROW};
use tree::table::Body;

// A rule by which a document's rows are asked.
pub(crate) trait Ask {
    ghost rule: { Rule };

    // The first of a document's rows that is bad by the rule. The first of them is the k-th of all.
    fn first_bad(s: &[u8], body: Body, k: usize) -> Option<usize>
        requires { CanTest rule body k s.now }
        ensures { result ≡ first_true k (tests rule (rows_in body s.now)) };
}

// The first row of all that is bad by a rule.
pub(crate) fn rule_fault<A: Ask>(s: &[u8]) -> Option<usize>
    requires { CanPass A.rule s.now }
    ensures { result ≡ rule_fault A.rule s.now }
{
    let d = documents(s);
    let mut k = 0;
    for i in 0..d {
        let n = rows(s, HEAD + ENTRY * i);
        let body = Body {
            base: HEAD + ENTRY * d + ROW * k,
            rows: n,
        };
        if let Some(p) = A::first_bad(s, body, k) {
            return Some(p);
        }
        k += n;
    }
    None
}
