// 26: parents that are there, and kinds that fit the children.
ghost use Rattle.std.specs.Prelude.{◌≡◌, not, ◌+◌, ◌*◌, ◌≤◌, eqb, length};
ghost use Rattle.rules.specs.Choice.{pick};
ghost use Rattle.rules.specs.Faults.{first_true, bad_links};
ghost use Rattle.rules.specs.Layout.{row_size};
ghost use Rattle.faults.specs.Each.{Links};
ghost use Rattle.faults.specs.Places.{rows_in};
ghost use Rattle.faults.specs.Each.{CanTest};
ghost use Rattle.faults.specs.Links.{run_on, parent_on, CanLink, Marked, CanMark, CanJudge, CanFind};

use crate::each::Ask;
use layout::ROW;
use layout::row::{kind, known, number, parent};
use rules::{REVISIONS, RevNumber, Revision};
use tree::table::{Body, find};

// Rows lo to hi, among which a parent is sought. The library's range can't be copied.
#[derive(Clone, Copy)]
struct Run {
    lo: usize,
    hi: usize,
}

// A row's parent: none is known, it isn't in the document, or it is a row there. An Option in an Option would leave two
// of the three without a name.
#[derive(Clone, Copy)]
enum Parent {
    Unknown,
    Missing,
    Among(usize),
}

// The run for row j. Rows of one number lie together, so it moves only where a number ends.
fn run_at(s: &[u8], base: usize, run: Run, j: usize) -> Run
    requires { (run.hi ≤ j) × (base + j * row_size + row_size ≤ length s.now) }
    ensures { result ≡ run_on base run j s.now }
{
    let hi = run.hi;
    let x = number(s, base + hi * ROW);
    let y = number(s, base + j * ROW);
    if x.0 == y.0 {
        return run;
    }
    Run { lo: hi, hi: j }
}

// The parent of row j.
fn parent_of(s: &[u8], base: usize, run: Run, j: usize) -> Parent
    requires { CanLink base j run s.now }
    ensures { result ≡ parent_on base run j s.now }
{
    let at = base + j * ROW;
    if known(s, at) == 0 {
        return Parent::Unknown;
    }
    let own = number(s, at);
    let below = RevNumber(own.0 - 1);
    let hash = parent(s, at);
    let rev = Revision {
        number: below,
        hash,
    };
    let lo = run.lo;
    let body = Body {
        base: base + lo * ROW,
        rows: run.hi - lo,
    };
    match find(s, body, rev) {
        Ok(i) => {
            let there = lo + i;
            Parent::Among(there)
        }
        Err(_) => Parent::Missing,
    }
}

// Marks each of a document's rows that is a parent. Answers the first row whose parent is missing, or how many
// rows there are.
fn mark_parents(s: &[u8], body: Body, marks: &mut [u8]) -> usize
    requires { CanMark body.base body.rows s.now marks.old }
    ensures { Marked body.base body.rows body.rows s.now marks.new result }
{
    let base = body.base;
    let n = body.rows;
    let mut run = Run { lo: 0, hi: 0 };
    let mut missing = n;
    for j in 0..n {
        run = run_at(s, base, run, j);
        match parent_of(s, base, run, j) {
            Parent::Unknown => {}
            Parent::Missing => {
                missing = missing.min(j);
            }
            Parent::Among(i) => {
                marks[i] = 1;
            }
        }
    }
    missing
}

// The kind of a row doesn't fit its mark: 0 is for those that have a child.
fn kind_bad(kind: u8, mark: u8) -> bool
    ensures { result ≡ pick (eqb mark 1) (not (eqb kind 0)) (eqb kind 0) }
{
    (mark == 1) != (kind == 0)
}

// The first bad one of a document's marked rows, of which the first is the k-th of all.
fn kinds_in(s: &[u8], body: Body, k: usize, missing: usize, marks: &[u8]) -> Option<usize>
    requires { CanJudge body.base body.rows k missing s.now marks.now }
    ensures { result ≡ first_true k (bad_links (rows_in body s.now)) }
{
    let base = body.base;
    (0..missing)
        .find(|&j| kind_bad(kind(s, base + j * ROW), marks[j]))
        .or((missing < body.rows).then_some(missing))
        .map(|j| k + j)
}

// The same of rows that are not marked yet.
fn links_with(s: &[u8], body: Body, k: usize, marks: &mut [u8]) -> Option<usize>
    requires { CanFind body k s.now marks.old }
    ensures { result ≡ first_true k (bad_links (rows_in body s.now)) }
{
    let n = body.rows;
    let missing = mark_parents(s, body, &mut marks[..n]);
    kinds_in(s, body, k, missing, &marks[..n])
}

// 26, where 25 finds nothing.
pub(crate) struct AskLinks;

impl Ask for AskLinks {
    ghost rule = { Links };

    fn first_bad(s: &[u8], body: Body, k: usize) -> Option<usize> {
        let mut marks = [0u8; REVISIONS];
        links_with(s, body, k, &mut marks)
    }
}
