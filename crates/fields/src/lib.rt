// Fields: what the texts of a line's members say, read from a slice that holds exactly the text.
// Names, numbers, hashes and revisions; nothing is decoded but hex. It uses the crates rules, octets
// and lines.
#![tactic(auto)]

ghost use Rattle.std.specs.Prelude.{◌≡◌, true, ◌+◌, ◌<◌, ◌≤◌, length};
ghost use Rattle.rules.specs.Room.{hash_size};
ghost use Rattle.lines.specs.Said.{all, spare_zero, read_number, is_hex_digit, hex_digit_value, read_hash, read_rev};
ghost use Rattle.lines.specs.Take.{is_writable, unwritable};
ghost use Rattle.fields.specs.Fields.{pairs, Small, HexDigits, HexValues, HashTaken, is_true, name_at};

use octets::order::same_bytes;
use rules::{HASH, NUMBER_MOST, RevNumber, Revision};

// ---- numbers

fn spare_zero(t: &[u8]) -> bool
    ensures { result ≡ spare_zero t.now }
{
    matches!(t, [b'0', _, ..])
}

// The number of bare digits without a spare zero, if it is at most `most`. It stops at the first
// digit with which it would exceed that, so that no number overflows however long the text is.
pub fn read_number(t: &[u8], most: u64) -> Option<u64>
    ensures { result ≡ read_number most t.now }
{
    if t.is_empty() || spare_zero(t) {
        return None;
    }
    let mut v: u64 = 0;
    for &c in t {
        if !c.is_ascii_digit() {
            return None;
        }
        let d = u64::from(c - b'0');
        if most < d || (most - d) / 10 < v {
            return None;
        }
        v = v * 10 + d;
    }
    Some(v)
}

// ---- hashes

// The letter a less ten, of which hex digits past 9 are counted.
const LETTERS: u8 = b'a' - 10;

// The hex digits of a hash, two for each byte.
const HASH_DIGITS: usize = HASH + HASH;

fn is_hex_digit(c: u8) -> bool
    ensures { result ≡ is_hex_digit c }
{
    matches!(c, b'0'..=b'9' | b'a'..=b'f')
}

// Whether all are hex digits. No branch ends the loop, so that it goes by many bytes at once.
fn all_digits(t: &[u8]) -> bool
    ensures { result ≡ all is_hex_digit t.now }
{
    let mut all = true;
    for &c in t {
        all &= is_hex_digit(c);
    }
    all
}

fn hex_value(c: u8) -> u8
    requires { is_hex_digit c ≡ true }
    ensures { (result ≡ hex_digit_value c) × (result < 16) }
{
    if c <= b'9' { c - b'0' } else { c - LETTERS }
}

// The values of 32 hex digits, by themselves, so that this loop too goes by many bytes at once. It and the next are
// kept out of line: put in line, the arrays are taken apart and both loops go byte by byte.
#[inline(never)]
fn digit_values(t: &[u8]) -> [u8; HASH_DIGITS]
    requires { HexDigits t.now }
    ensures { HexValues t.now result }
{
    let mut values = [0u8; HASH_DIGITS];
    for i in 0..HASH_DIGITS {
        values[i] = hex_value(t[i]);
    }
    values
}

// A byte for each two values.
#[inline(never)]
fn pairs(values: &[u8; HASH_DIGITS]) -> [u8; HASH]
    requires { Small values.now }
    ensures { result ≡ pairs values.now }
{
    let mut hash = [0u8; HASH];
    for i in 0..HASH {
        hash[i] = values[i + i] * 16 + values[i + i + 1];
    }
    hash
}

pub fn read_hash(t: &[u8]) -> Option<[u8; HASH]>
    ensures { result ≡ read_hash t.now }
{
    if t.len() != HASH_DIGITS || !all_digits(t) {
        return None;
    }
    Some(pairs(&digit_values(t)))
}

// Lays a hash down at `at`, and answers whether the text is one. Where it is none, no byte changes.
pub fn put_hash(t: &[u8], path: &mut [u8], at: usize) -> bool
    requires { at + hash_size ≤ length path.old }
    ensures { HashTaken t.now path.old at result path.new }
{
    let Some(hash) = read_hash(t) else {
        return false;
    };
    octets::run::put_hash(path, at, hash);
    true
}

// ---- revisions

// A number, a dash and a hash.
pub fn read_rev(t: &[u8]) -> Option<Revision>
    ensures { result ≡ read_rev t.now }
{
    let dash = t.iter().position(|c| *c == b'-')?;
    let n = read_number(&t[..dash], u64::from(NUMBER_MOST))?;
    let hash = read_hash(&t[dash + 1..])?;
    let number = RevNumber(n as u32);
    Some(Revision { number, hash })
}

// ---- ids

fn is_writable(c: u8) -> bool
    ensures { result ≡ is_writable c }
{
    matches!(c, b' '..=b'~') && c != b'"' && c != b'\\'
}

// Whether an id can't be written.
pub fn is_unwritable(id: &[u8]) -> bool
    ensures { result ≡ unwritable id.now }
{
    id.iter().any(|c| !is_writable(*c))
}

// ---- names and words, as written

// A name of ours.
#[derive(Clone, Copy)]
pub enum Name {
    Id,
    Rev,
    Revisions,
    Deleted,
    Label,
    Start,
    Ids,
}

pub fn is_true(t: &[u8]) -> bool
    ensures { result ≡ is_true t.now }
{
    same_bytes(b"true", t)
}

// Which of our names a text is, its quotation marks with it. A `match` on texts is no plainer: it asks for a
// proof at each exit of the byte tests that it is turned into.
pub fn which_name(t: &[u8]) -> Option<Name>
    ensures { result ≡ name_at t.now }
{
    if same_bytes(b"\"_id\"", t) {
        Some(Name::Id)
    } else if same_bytes(b"\"_rev\"", t) {
        Some(Name::Rev)
    } else if same_bytes(b"\"_revisions\"", t) {
        Some(Name::Revisions)
    } else if same_bytes(b"\"_deleted\"", t) {
        Some(Name::Deleted)
    } else if same_bytes(b"\"label\"", t) {
        Some(Name::Label)
    } else if same_bytes(b"\"start\"", t) {
        Some(Name::Start)
    } else if same_bytes(b"\"ids\"", t) {
        Some(Name::Ids)
    } else {
        None
    }
}
