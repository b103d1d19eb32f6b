// Values: JSON values, objects and arrays passed over, and the steps of a walk over the items of a list.
// Text is read in place: every answer is a place in it. It uses the crate json_text, and rules in
// its theorems alone, and knows nothing of documents.
#![tactic(auto)]

ghost use Rattle.std.specs.Prelude.{◌≡◌, ◌<◌, ◌≤◌, length, get_or};
ghost use Rattle.json_text.specs.Tight.{value, array, object, member};
ghost use Rattle.json_text.specs.Skips.{Skips, Placed};
ghost use Rattle.values.specs.Places.{Opens, Follows, Finds};
ghost use Rattle.values.specs.Kinds.{open_of, close_of, list_of, item_of};

use json_text::{can_end, peek, skip_scalar, skip_string, skip_ws};

// Where a walk over a list stands: at an item, or behind the closing bracket. (No Option: each has its place.)
#[derive(Clone, Copy)]
pub enum Next {
    Item(usize),
    End(usize),
}

// The places of a member: its name with the quotation marks, and its value.
#[derive(Clone, Copy)]
pub struct Member {
    pub name: usize,
    pub name_end: usize,
    pub value: usize,
    pub value_end: usize,
}

// ---- Passing over

// The two kinds of list, an object's items being its members.
#[derive(Clone, Copy)]
enum Kind {
    Array,
    Object,
}

impl Kind {
    fn close(self) -> u8
        ensures { result ≡ close_of self }
    {
        match self {
            Kind::Array => b']',
            Kind::Object => b'}',
        }
    }
}

// Passes over a value in which objects and arrays go at most `depth` deep.
#[cycle(skips)]
fn skip_value(s: &[u8], at: usize, depth: usize) -> Option<usize>
    requires { at ≤ length s.now }
    ensures { Skips (value depth) s.now at result }
{
    match peek(s, at) {
        b'[' => skip_array(s, at, depth.checked_sub(1)?),
        b'{' => skip_object(s, at, depth.checked_sub(1)?),
        _ => skip_scalar(s, at),
    }
}

// Passes over an array whose values go at most `depth` deep. It and the next stand apart, since the rules name
// the array skipper and the object skipper that a value calls.
#[cycle(skips)]
fn skip_array(s: &[u8], at: usize, depth: usize) -> Option<usize>
    requires { get_or s.now at 0 ≡ 91 }
    ensures { Skips (array (value depth)) s.now at result }
{
    skip_list(s, at, Kind::Array, depth)
}

// Passes over an object whose values go at most `depth` deep.
#[cycle(skips)]
fn skip_object(s: &[u8], at: usize, depth: usize) -> Option<usize>
    requires { get_or s.now at 0 ≡ 123 }
    ensures { Skips (object (value depth)) s.now at result }
{
    skip_list(s, at, Kind::Object, depth)
}

// Passes over a list whose values go at most `depth` deep: what an array and an object have in common.
#[cycle(skips)]
fn skip_list(s: &[u8], at: usize, kind: Kind, depth: usize) -> Option<usize>
    requires { get_or s.now at 0 ≡ open_of kind }
    ensures { Skips (list_of kind (value depth)) s.now at result }
{
    let mut next = open_at(s, at, kind.close());
    loop {
        match next {
            Next::End(e) => return Some(e),
            Next::Item(i) => {
                // No `?`: an edit tries the answer of a list that ends in its comma here, and a `?` would refuse it for its form alone.
                let Some(e) = skip_item(s, i, kind, depth) else {
                    return None;
                };
                next = after_item(s, e, kind.close())?;
            }
        }
    }
}

// Passes over an item of a list whose values go at most `depth` deep.
#[cycle(skips)]
fn skip_item(s: &[u8], at: usize, kind: Kind, depth: usize) -> Option<usize>
    requires { at ≤ length s.now }
    ensures { Skips (item_of kind (value depth)) s.now at result }
{
    match kind {
        Kind::Array => skip_value(s, at, depth),
        Kind::Object => skip_member(s, at, depth),
    }
}

// Passes over a member whose value goes at most `depth` deep.
#[cycle(skips)]
fn skip_member(s: &[u8], at: usize, depth: usize) -> Option<usize>
    requires { at ≤ length s.now }
    ensures { Skips (member (value depth)) s.now at result }
{
    let e = skip_string(s, at)?;
    let n = skip_ws(s, e);
    if peek(s, n) != b':' {
        return None;
    }
    let v = skip_ws(s, n + 1);
    skip_value(s, v, depth)
}

// ---- Walking over

// The end of the value at `at`, in which objects and arrays go at most `depth` deep, where what follows
// can follow one.
pub fn value_at(s: &[u8], at: usize, depth: usize) -> Option<usize>
    requires { at ≤ length s.now }
    ensures { Placed (value depth) s.now at result }
{
    let e = skip_value(s, at, depth)?;
    if can_end(s, e) {
        return Some(e);
    }
    None
}

// The first item of the list whose opening bracket stands at `at`.
pub fn open_at(s: &[u8], at: usize, close: u8) -> Next
    requires { (at < length s.now) × (0 < close) }
    ensures { Opens s.now at close result }
{
    let i = skip_ws(s, at + 1);
    if peek(s, i) == close {
        return Next::End(i + 1);
    }
    Next::Item(i)
}

// What follows the item of a list that ends at `at`.
pub fn after_item(s: &[u8], at: usize, close: u8) -> Option<Next>
    requires { (at ≤ length s.now) × ((0 < close) × (close ≡ 44 → ⊥)) }
    ensures { Follows s.now at close result }
{
    let i = skip_ws(s, at);
    let b = peek(s, i);
    if b == close {
        return Some(Next::End(i + 1));
    }
    if b == b',' {
        return Some(Next::Item(skip_ws(s, i + 1)));
    }
    None
}

// The member at `at`, whose value goes at most `depth` deep, where what follows can follow one.
pub fn member_at(s: &[u8], at: usize, depth: usize) -> Option<Member>
    requires { at ≤ length s.now }
    ensures { Finds depth s.now at result }
{
    let name_end = skip_string(s, at)?;
    let colon = skip_ws(s, name_end);
    if peek(s, colon) != b':' {
        return None;
    }
    let value = skip_ws(s, colon + 1);
    let value_end = value_at(s, value, depth)?;
    Some(Member {
        name: at,
        name_end,
        value,
        value_end,
    })
}
