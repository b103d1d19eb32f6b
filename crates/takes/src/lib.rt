// Takes: one line taken in as a path write, into a replica in a lent buffer.
// The line is read in place, and passed over once. That walk decides 40, keeps where the values of our
// members stand, and lays the hashes of the path down on its way, once, for the write; what stands there
// decides 41 to 43. It uses the crates rules, octets, writes, json_text, values, lines and fields.
#![tactic(auto)]

ghost use Rattle.std.specs.Prelude.{◌≡◌, ℕ, ◌≤◌, ◌<◌, length, get_or};
ghost use Rattle.std.specs.Prelude.{List, Option, None};
ghost use Rattle.rules.specs.Choice.{maybe};
ghost use Rattle.fields.specs.declared.Name.{Name};
ghost use Rattle.fields.specs.declared.Name.TheVariants.{Ids, Revisions};
ghost use Rattle.rules.specs.Room.{hash_size};
ghost use Rattle.store.specs.Storage.{IsStored, replica_of};
ghost use Rattle.lines.specs.Said.{read_number};
ghost use Rattle.writes.specs.Path.{write_of};
ghost use Rattle.takes.specs.Spots.{Fits, one_more, see_at, string_in, plain_in, part_text, content_in};
ghost use Rattle.takes.specs.Walk.{Names};
ghost use Rattle.takes.specs.Path.{laid_room, hash_in, IdsAt, IdsRead, beside_rev, PathRead};
ghost use Rattle.takes.specs.Read.{Valued, Walks, IdsPassed, revs_in, RevsAt, RevsKept, RevsPassed, LineWalks};
ghost use Rattle.takes.specs.Took.{Left, written, CanTake, TakesRest, TakesSpots, Took};

use fields::{Name, is_true, is_unwritable, read_hash, read_number, read_rev, which_name};
use json_text::{can_end, peek, skip_string, skip_ws};
use octets::order::same_bytes;
use octets::run::put_hash;
use rules::{Content, HASH, Outcome, PATH_HASHES, Refusal, Revision};
use values::{Next, after_item, open_at, value_at};
use writes::write;

const QUOTE: u8 = 34;

const ARRAY: u8 = 91;

const ARRAY_END: u8 = 93;

const OBJECT: u8 = 123;

const OBJECT_END: u8 = 125;

const COLON: u8 = 58;

// How deep the values go that a line holds, and that its `_revisions` holds.
const LINE_DEPTH: usize = 15;

const REVISIONS_DEPTH: usize = 14;

const START_MOST: u64 = 4294967295;

const LABEL_MOST: u64 = 18446744073709551615;

// The bytes of a hash as a string, with its quotation marks.
const HASH_TEXT: usize = HASH + HASH + 2;

const HASH_QUOTE: usize = HASH + HASH + 1;

// One hash more than a path may have, so that a longer path is refused by the write itself.
const LAID: usize = (PATH_HASHES + 1) * HASH;

// ---- where the values of our members stand

// Of one name: nowhere, from a place to another, or in more than one place. (No Option: what is absent
// and what is repeated are told apart.)
#[derive(Clone, Copy)]
enum Spot {
    Absent,
    Once(usize, usize),
    Repeated,
}

// Of each of our names, by its place among them.
type Spots = [Spot; 7];

// The spot of a name once a value from v to e was seen.
fn seen(p: Spot, v: usize, e: usize) -> Spot
    ensures { result ≡ one_more p v e }
{
    match p {
        Spot::Absent => Spot::Once(v, e),
        Spot::Once(_, _) => Spot::Repeated,
        Spot::Repeated => Spot::Repeated,
    }
}

// Keeps that a value from v to e was seen, of that name of ours or of another.
fn see(spots: &mut Spots, name: Option<Name>, v: usize, e: usize)
    ensures { spots.new ≡ see_at spots.old name v e }
{
    if let Some(name) = name {
        let at = name as usize;
        spots[at] = seen(spots[at], v, e);
    }
}

// The name at `at`, and the colon after it.
fn name_at(s: &[u8], at: usize) -> Option<(usize, usize)>
    requires { at ≤ length s.now }
    ensures { Names s.now at result }
{
    let to = skip_string(s, at)?;
    let colon = skip_ws(s, to);
    if peek(s, colon) != COLON {
        return None;
    }
    Some((to, skip_ws(s, colon + 1)))
}

// ---- what stands in a spot

// What stands between the quotation marks of a string.
fn string_in(s: &[u8], p: Spot) -> Option<(usize, usize)>
    requires { Fits s.now p }
    ensures { result ≡ string_in s.now p }
{
    let Spot::Once(v, e) = p else {
        return None;
    };
    if peek(s, v) != QUOTE {
        return None;
    }
    Some((v + 1, e - 1))
}

fn number_in(s: &[u8], p: Spot, most: u64) -> Option<u64>
    requires { Fits s.now p }
    ensures { result ≡ maybe None (read_number most) (part_text s.now (plain_in p)) }
{
    let Spot::Once(v, e) = p else {
        return None;
    };
    read_number(&s[v..e], most)
}

fn label_in(s: &[u8], label: Spot) -> Option<Content>
    requires { Fits s.now label }
    ensures { result ≡ content_in s.now Spot.Absent label }
{
    let n = number_in(s, label, LABEL_MOST)?;
    Some(Content::Live(n))
}

// One of the two, and `_deleted` only as true.
fn content_in(s: &[u8], deleted: Spot, label: Spot) -> Option<Content>
    requires { Fits s.now deleted × Fits s.now label }
    ensures { result ≡ content_in s.now deleted label }
{
    let Spot::Once(v, e) = deleted else {
        if let Spot::Repeated = deleted {
            return None;
        }
        return label_in(s, label);
    };
    let Spot::Absent = label else {
        return None;
    };
    if is_true(&s[v..e]) {
        return Some(Content::Deleted);
    }
    None
}

// ---- the path

// The hash that stands at i as a string.
fn hash_in(s: &[u8], i: usize) -> Option<[u8; HASH]>
    requires { i ≤ length s.now }
    ensures { result ≡ hash_in s.now i }
{
    if s.len() - i < HASH_TEXT || s[i] != QUOTE || s[i + HASH_QUOTE] != QUOTE {
        return None;
    }
    read_hash(&s[i + 1..i + HASH_QUOTE])
}

// Lays the hashes down of the array at `at`. Those past the room stand one for the other in the last
// place.
fn ids_at(s: &[u8], at: usize, path: &mut [u8]) -> Option<(usize, usize)>
    requires { (get_or s.now at 0 ≡ 91) × (length path.old ≡ laid_room) }
    ensures { IdsRead 12 s.now at path.old result path.new }
{
    let mut i = at;
    match open_at(s, at, ARRAY_END) {
        Next::End(end) => {
            return Some((0, end));
        }
        Next::Item(first) => {
            i = first;
        }
    }
    let mut n: usize = 0;
    loop {
        let k = n.min(PATH_HASHES);
        let hash = hash_in(s, i)?;
        put_hash(path, k * HASH, hash);
        n = k + 1;
        match after_item(s, i + HASH_TEXT, ARRAY_END)? {
            Next::Item(j) => {
                i = j;
            }
            Next::End(end) => {
                return Some((n, end));
            }
        }
    }
}

// ---- the walk over an object

// Where a value ends, and what was read of it.
#[derive(Drop)]
struct Value<T> {
    end: Option<usize>,
    got: Option<T>,
}

// Where an object ends, the spots of its members, and what was read of them on the way.
#[derive(Drop)]
struct Walk<T> {
    end: usize,
    spots: Spots,
    got: Option<T>,
}

// What is read of an object's members while it is passed over: of one name alone, and of its value where
// that begins with one byte.
trait Reads<T> {
    // What was read of the value at a place says this, of the bytes, the place and the path that is left.
    ghost read: { List ℕ → ℕ → List ℕ → Option T → Type 0 };

    ghost of_name: { Name };

    ghost first_byte: { ℕ };

    ghost depth: { ℕ };

    // Passes over the value of that name.
    fn value(s: &[u8], name: Option<Name>, v: usize, path: &mut [u8], got: Option<T>) -> Value<T>
        requires { (v ≤ length s.now) × (length path.old ≡ laid_room) }
        ensures { Valued (read s.now) of_name first_byte depth s.now name v path.old got result path.new };
}

// Passes over an object.
fn walk_object<T: Copy, R: Reads<T>>(s: &[u8], at: usize, path: &mut [u8]) -> Option<Walk<T>>
    requires { (get_or s.now at 0 ≡ 123) × (length path.old ≡ laid_room) }
    ensures { Walks (R.read s.now) R.of_name R.first_byte R.depth s.now at path.old result path.new }
{
    let mut i = at;
    let mut spots = [Spot::Absent; 7];
    let mut got = None;
    match open_at(s, at, OBJECT_END) {
        Next::End(end) => {
            return Some(Walk { end, spots, got });
        }
        Next::Item(first) => {
            i = first;
        }
    }
    loop {
        let (to, v) = name_at(s, i)?;
        let name = which_name(&s[i..to]);
        let value = R::value(s, name, v, path, got);
        got = value.got;
        let e = value.end?;
        see(&mut spots, name, v, e);
        match after_item(s, e, OBJECT_END)? {
            Next::Item(j) => i = j,
            Next::End(end) => {
                return Some(Walk { end, spots, got });
            }
        }
    }
}

// ---- `_revisions`, passed over and read at once

// Passes over the array of the ids.
fn ids_array(s: &[u8], v: usize, path: &mut [u8]) -> Value<(usize, usize)>
    requires { (get_or s.now v 0 ≡ 91) × (length path.old ≡ laid_room) }
    ensures { IdsPassed 12 s.now v path.old result path.new }
{
    let got = ids_at(s, v, path);
    let end = match got {
        Some((_, e)) if can_end(s, e) => Some(e),
        _ => value_at(s, v, REVISIONS_DEPTH),
    };
    Value { end, got }
}

// Of `_revisions`: the ids, where they are an array.
struct IdsIn;

impl Reads<(usize, usize)> for IdsIn {
    ghost read = { IdsAt 12 };

    ghost of_name = { Ids };

    ghost first_byte = { 91 };

    ghost depth = { 14 };

    fn value(
        s: &[u8],
        name: Option<Name>,
        v: usize,
        path: &mut [u8],
        got: Option<(usize, usize)>,
    ) -> Value<(usize, usize)>
        requires { (v ≤ length s.now) × (length path.old ≡ laid_room) }
        ensures { Valued (IdsAt 12 s.now) Ids 91 14 s.now name v path.old got result path.new }
    {
        match name {
            Some(Name::Ids) if peek(s, v) == ARRAY => ids_array(s, v, path),
            _ => Value {
                end: value_at(s, v, REVISIONS_DEPTH),
                got,
            },
        }
    }
}

fn revs_in(s: &[u8], start: Spot, ids: Spot, got: Option<(usize, usize)>) -> Option<(u64, usize)>
    requires { Fits s.now start }
    ensures { result ≡ revs_in s.now start ids got }
{
    let first = number_in(s, start, START_MOST)?;
    let Spot::Once(v, _) = ids else {
        return None;
    };
    if peek(s, v) != ARRAY {
        return None;
    }
    let (n, _) = got?;
    Some((first, n))
}

// Passes over the object of `_revisions`, and reads it.
fn revs_object(s: &[u8], v: usize, path: &mut [u8]) -> Value<(u64, usize)>
    requires { (get_or s.now v 0 ≡ 123) × (length path.old ≡ laid_room) }
    ensures { RevsPassed 12 s.now v path.old result path.new }
{
    let Some(x) = walk_object::<_, IdsIn>(s, v, path) else {
        return Value {
            end: None,
            got: None,
        };
    };
    let start = x.spots[Name::Start as usize];
    let ids = x.spots[Name::Ids as usize];
    let got = revs_in(s, start, ids, x.got);
    if can_end(s, x.end) {
        Value {
            end: Some(x.end),
            got,
        }
    } else {
        Value { end: None, got }
    }
}

// Of a line: `_revisions`, where it is an object.
struct RevisionsIn;

impl Reads<(u64, usize)> for RevisionsIn {
    ghost read = { RevsAt 12 };

    ghost of_name = { Revisions };

    ghost first_byte = { 123 };

    ghost depth = { 15 };

    fn value(
        s: &[u8],
        name: Option<Name>,
        v: usize,
        path: &mut [u8],
        got: Option<(u64, usize)>,
    ) -> Value<(u64, usize)>
        requires { (v ≤ length s.now) × (length path.old ≡ laid_room) }
        ensures { Valued (RevsAt 12 s.now) Revisions 123 15 s.now name v path.old got result path.new }
    {
        match name {
            Some(Name::Revisions) if peek(s, v) == OBJECT => revs_object(s, v, path),
            _ => Value {
                end: value_at(s, v, LINE_DEPTH),
                got,
            },
        }
    }
}

// Passes over a whole line.
fn walk_line(s: &[u8], path: &mut [u8]) -> Option<Walk<(u64, usize)>>
    requires { length path.old ≡ laid_room }
    ensures { LineWalks s.now path.old result path.new }
{
    let at = skip_ws(s, 0);
    if peek(s, at) != OBJECT {
        return None;
    }
    let x = walk_object::<_, RevisionsIn>(s, at, path)?;
    if skip_ws(s, x.end) < s.len() {
        return None;
    }
    Some(x)
}

// ---- the path of a line

// The hashes laid down, beside the revision of `_rev`: how many, or that the two differ or there are
// none.
fn beside(rev: Revision, first: u64, n: usize, path: &[u8]) -> Result<usize, Refusal>
    requires { length path.now ≡ laid_room }
    ensures { result ≡ beside_rev rev first n path.now }
{
    if first != u64::from(rev.number.0) {
        return Err(Refusal::OtherRevisions);
    }
    if n == 0 {
        return Err(Refusal::OtherRevisions);
    }
    if !same_bytes(&rev.hash, &path[..HASH]) {
        return Err(Refusal::OtherRevisions);
    }
    Ok(n)
}

// How many hashes the path of a line has: without `_revisions` it is the one revision of `_rev`.
fn path_in(
    s: &[u8],
    p: Spot,
    got: Option<(u64, usize)>,
    rev: Revision,
    path: &mut [u8],
) -> Result<usize, Refusal>
    requires { RevsKept 12 s.now p path.old got × (length path.old ≡ laid_room) }
    ensures { PathRead 12 s.now p rev path.old result path.new }
{
    match p {
        Spot::Absent => {
            put_hash(path, 0, rev.hash);
            Ok(1)
        }
        Spot::Once(v, _) => {
            if peek(s, v) != OBJECT {
                return Err(Refusal::BadMember);
            }
            let (first, n) = got.ok_or(Refusal::BadMember)?;
            beside(rev, first, n, path)
        }
        Spot::Repeated => Err(Refusal::BadMember),
    }
}

// ---- the line

// The write, if the id can be written.
fn put(
    b: &mut [u8],
    id: &[u8],
    rev: Revision,
    path: &[u8],
    content: Content,
) -> Result<Outcome, Refusal>
    requires { IsStored b.old }
    ensures { Left (written (replica_of b.old) (write_of id.now rev.number path.now content)) result b.new }
{
    if is_unwritable(id) {
        return Err(Refusal::UnwritableId);
    }
    write(b, id, rev.number, path, content)
}

// What is left to read once the id and the revision are.
fn take_rest(
    b: &mut [u8],
    line: &[u8],
    id: &[u8],
    rev: Revision,
    x: &Walk<(u64, usize)>,
    path: &mut [u8],
) -> Result<Outcome, Refusal>
    requires { CanTake b.old line.now x.now path.old }
    ensures { TakesRest b.old line.now id.now rev x.now.spots result b.new }
{
    let deleted = x.spots[Name::Deleted as usize];
    let label = x.spots[Name::Label as usize];
    let content = content_in(line, deleted, label).ok_or(Refusal::BadMember)?;
    let revisions = x.spots[Name::Revisions as usize];
    let n = path_in(line, revisions, x.got, rev, path)?;
    put(b, id, rev, &path[..n * HASH], content)
}

fn take_spots(
    b: &mut [u8],
    line: &[u8],
    x: &Walk<(u64, usize)>,
    path: &mut [u8],
) -> Result<Outcome, Refusal>
    requires { CanTake b.old line.now x.now path.old }
    ensures { TakesSpots b.old line.now x.now.spots result b.new }
{
    let id = x.spots[Name::Id as usize];
    let (from, to) = string_in(line, id).ok_or(Refusal::BadMember)?;
    let rev = x.spots[Name::Rev as usize];
    let (begin, end) = string_in(line, rev).ok_or(Refusal::BadMember)?;
    let revision = read_rev(&line[begin..end]).ok_or(Refusal::BadMember)?;
    take_rest(b, line, &line[from..to], revision, x, path)
}

// Takes one line in: refused by 40 to 43, or answered as the path write that it is.
pub fn take_in(b: &mut [u8], line: &[u8]) -> Result<Outcome, Refusal>
    requires { IsStored b.old }
    ensures { Took b.old line.now result b.new }
{
    let mut path = [0u8; LAID];
    let x = walk_line(line, &mut path).ok_or(Refusal::NotJson)?;
    take_spots(b, line, &x, &mut path)
}
