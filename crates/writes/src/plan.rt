// The plan of a write: a read-only pass over its path.
ghost use Rattle.std.specs.Prelude.{◌≡◌, ◌||◌, ℕ, ◌+◌, ◌<◌, ◌≤◌, length};
ghost use Rattle.std.specs.Prelude.{Option, None, Some};
ghost use Rattle.rules.specs.Bytes.{part};
ghost use Rattle.rules.specs.Choice.{pick};
ghost use Rattle.rules.specs.Map.{find as has};
ghost use Rattle.rules.specs.Layout.{row_size};
ghost use Rattle.rules.specs.Room.{hash_size, hashes_most};
ghost use Rattle.rules.specs.Order.{is_equal, order_bytes, order_rev, same_rev};
ghost use Rattle.rules.specs.Replica.{Tree};
ghost use Rattle.rules.specs.Write.{lacks_parent, agree, differ};
ghost use Rattle.tree.specs.Rows.{meaning, node_at};
ghost use Rattle.tree.specs.Table.{tree_in, Within};
ghost use Rattle.writes.specs.Path.{rev_at, parent_at, gives_of, InPath};
ghost use Rattle.writes.specs.Plan.{holds, settled, no_plan, planned, plan_of, Counted, CanStep, Stepped, CanPlan};

use crate::path::given;
use layout::{HASH_IN, PARENT_HASH_IN, ROW, row};
use octets::number::get8;
use rules::{Content, HASH, RevNumber};
use tree::row::Row;
use tree::table::{Body, find, row_at};

// What a path would do to a document: whether a revision of it has another parent (4) or another
// content (5), how many revisions and parents it would add, and how many of the newest it can alter.
#[derive(Clone, Copy)]
pub struct Plan {
    pub crossed: bool,
    pub other: bool,
    pub revisions: usize,
    pub parents: usize,
    pub reach: usize,
}

// A plan, and how many rows can still hold what is left of the path.
#[derive(Clone, Copy)]
struct Pass {
    plan: Plan,
    top: usize,
}

// Whether two contents agree: by cases, the form that the rules name for a content.
fn same_content(a: Content, b: Content) -> bool
    ensures { result ≡ agree a b }
{
    match (a, b) {
        (Content::Live(x), Content::Live(y)) => x == y,
        (Content::Deleted, Content::Deleted) => true,
        (Content::Live(_), Content::Deleted) => false,
        (Content::Deleted, Content::Live(_)) => false,
    }
}

// 5, of a revision that is held: it is a leaf with another content.
fn other_content(held: Option<Content>, given: Option<Content>) -> bool
    ensures { result ≡ differ agree held given }
{
    match (held, given) {
        (Some(a), Some(b)) => !same_content(a, b),
        _ => false,
    }
}

// Whether sixteen bytes of each are the same. They are compared as two numbers of eight.
fn same_hashes(a: &[u8], p: usize, b: &[u8], q: usize) -> bool
    requires { (p + hash_size ≤ length a.now) × (q + hash_size ≤ length b.now) }
    ensures { result ≡ is_equal (order_bytes (part p hash_size a.now) (part q hash_size b.now)) }
{
    let x = get8(a, p);
    let y = get8(b, q);
    if x != y {
        return false;
    }
    let u = get8(a, p + 8);
    let v = get8(b, q + 8);
    u == v
}

// 4, of a revision that is held: it has a parent other than the one given.
fn other_parent(held: Row, given: Row) -> bool
    requires { held.rev ≡ given.rev }
    ensures { result ≡ differ same_rev (meaning held).1.parent (meaning given).1.parent }
{
    let Some(a) = held.parent else {
        return false;
    };
    let Some(b) = given.parent else {
        return false;
    };
    !same_hashes(&a, 0, &b, 0)
}

// A parent is given, and none is known.
fn lacks_parent(held: Row, given: Row) -> bool
    ensures { result ≡ lacks_parent (meaning given).1.parent (meaning held).1.parent }
{
    if held.parent.is_some() {
        return false;
    }
    given.parent.is_some()
}

// An addition at k alters it and its parent.
fn reach(added: bool, k: usize, before: usize) -> usize
    requires { k < hashes_most }
    ensures { result ≡ pick added (k + 2) before }
{
    if added { k + 2 } else { before }
}

// The plan with the k-th revision, which is not held.
fn with_new(p: Plan, given: Row, k: usize) -> Plan
    requires { Counted p k }
    ensures { (t : Tree) → has order_rev given.rev t ≡ None → result ≡ planned t k p (meaning given) }
{
    Plan {
        crossed: p.crossed,
        other: p.other,
        revisions: p.revisions + 1,
        parents: p.parents + usize::from(given.parent.is_some()),
        reach: k + 2,
    }
}

// The plan with the k-th revision, which is held.
fn with_held(p: Plan, held: Row, given: Row, k: usize) -> Plan
    requires { Counted p k × (held.rev ≡ given.rev) }
    ensures { (t : Tree) → has order_rev given.rev t ≡ Some (meaning held).1 → result ≡ planned t k p (meaning given) }
{
    let lacks = lacks_parent(held, given);
    Plan {
        crossed: p.crossed | other_parent(held, given),
        other: p.other | other_content(held.content, given.content),
        revisions: p.revisions,
        parents: p.parents + usize::from(lacks),
        reach: reach(lacks, k, p.reach),
    }
}

// The plan with the k-th revision. All revisions that are still to come are lower, so that only the
// rows below this one can hold them.
fn step(b: &[u8], body: Body, given: Row, k: usize, p: Plan) -> Pass
    requires { CanStep b.now body p k }
    ensures { Stepped b.now body (meaning given) p k result }
{
    let rev = given.rev;
    match find(b, body, rev) {
        Ok(i) => {
            let held = row_at(b, body, i);
            let plan = with_held(p, held, given, k);
            Pass { plan, top: i }
        }
        Err(i) => {
            let plan = with_new(p, given, k);
            Pass { plan, top: i }
        }
    }
}

// Whether the row at p is the k-th revision of the path, with the parent that the path gives it. The
// bytes are compared where they stand: most revisions of a path that comes again are like this.
fn is_held(b: &[u8], p: usize, number: RevNumber, path: &[u8], k: usize) -> bool
    requires { (p + row_size ≤ length b.now) × InPath path.now number.0 k }
    ensures { result ≡ holds (node_at p b.now) (rev_at number.0 path.now k) (parent_at number.0 path.now k) }
{
    let n = row::number(b, p);
    if n.0 != number.0 - (k as u32) {
        return false;
    }
    let at = k * HASH;
    if !same_hashes(b, p + HASH_IN, path, at) {
        return false;
    }
    let next = k + 1;
    if next == path.len() / HASH {
        return true;
    }
    if row::known(b, p) == 0 {
        return false;
    }
    same_hashes(b, p + PARENT_HASH_IN, path, at + HASH)
}

// Whether the last row is the k-th revision and the path adds nothing to it. The newest also has a
// content, so it is left to a step.
fn is_settled(b: &[u8], body: Body, number: RevNumber, path: &[u8], k: usize) -> bool
    requires { Within body b.now × InPath path.now number.0 k }
    ensures { result ≡ settled body b.now number.0 path.now k }
{
    if k == 0 {
        return false;
    }
    if body.rows == 0 {
        return false;
    }
    is_held(b, body.base + (body.rows - 1) * ROW, number, path, k)
}

// What a path would do to the document that has these rows.
pub(crate) fn plan_path(
    b: &[u8],
    body: Body,
    number: RevNumber,
    path: &[u8],
    content: Content,
) -> Plan
    requires { CanPlan b.now body number.0 path.now }
    ensures { result ≡ plan_of (tree_in body b.now) (gives_of number path.now content) }
{
    let count = path.len() / HASH;
    let mut p = Plan {
        crossed: false,
        other: false,
        revisions: 0,
        parents: 0,
        reach: 0,
    };
    let base = body.base;
    let mut top = body.rows;
    for k in 0..count {
        let left = Body { base, rows: top };
        if is_settled(b, left, number, path, k) {
            top -= 1;
        } else {
            let s = step(b, left, given(path, number, content, k), k, p);
            p = s.plan;
            top = s.top;
        }
    }
    p
}
