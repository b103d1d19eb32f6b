// The fields of a document's entry, which begins at `at`.
ghost use Rattle.std.specs.Prelude.{◌≡◌, ℕ, ◌+◌, ◌≤◌, length};
ghost use Rattle.rules.specs.Bytes.{be, part};
ghost use Rattle.rules.specs.Layout.{count_in, own_in, place_in, entry_size, entry_of};
ghost use Rattle.rules.specs.Room.{documents_most};
ghost use Rattle.octets.specs.Splice.{splice};
ghost use Rattle.octets.specs.Octets.{NumberPut};
ghost use Rattle.layout.specs.Fields.{IsField, one_byte, two_bytes, four_bytes, entry_place, HasId};

use crate::{COUNT_IN, ENTRY, HEAD, ID_IN, OWN_IN, PLACE_IN};
use octets::number::{get2, get4, put2, put4};
use rules::Seq;

// Where entry d begins.
pub fn entry_place(d: usize) -> usize
    requires { d ≤ documents_most }
    ensures { result ≡ entry_place d }
{
    HEAD + ENTRY * d
}

pub fn id_size(s: &[u8], at: usize) -> usize
    requires { at + entry_size ≤ length s.now }
    ensures { IsField one_byte (entry_of (part at entry_size s.now)).size result }
{
    s[at] as usize
}

// The id: as many bytes as the entry says, if it can hold them.
pub fn id(s: &[u8], at: usize) -> &[u8]
    requires { HasId at s.now }
    ensures { result.now ≡ (entry_of (part at entry_size s.now)).id }
{
    let a = at + ID_IN;
    let e = a + id_size(s, at);
    &s[a..e]
}

pub fn rows(s: &[u8], at: usize) -> usize
    requires { at + entry_size ≤ length s.now }
    ensures { IsField two_bytes (entry_of (part at entry_size s.now)).rows result }
{
    get2(s, at + COUNT_IN)
}

pub fn own(s: &[u8], at: usize) -> Seq
    requires { at + entry_size ≤ length s.now }
    ensures { IsField four_bytes (entry_of (part at entry_size s.now)).seq result.0 }
{
    Seq(get4(s, at + OWN_IN))
}

pub fn place(s: &[u8], at: usize) -> u32
    requires { at + entry_size ≤ length s.now }
    ensures { IsField four_bytes (entry_of (part at entry_size s.now)).place result }
{
    get4(s, at + PLACE_IN)
}

pub fn put_rows(s: &mut [u8], at: usize, n: usize)
    requires { at + entry_size ≤ length s.old }
    ensures { s.new ≡ splice s.old (at + count_in) (be 2 n) }
{
    put2(s, at + COUNT_IN, n);
}

pub fn put_own(s: &mut [u8], at: usize, q: Seq)
    requires { at + entry_size ≤ length s.old }
    ensures { NumberPut 4 four_bytes s.old (at + own_in) q.0 s.new }
{
    put4(s, at + OWN_IN, q.0);
}

pub fn put_place(s: &mut [u8], at: usize, n: u32)
    requires { at + entry_size ≤ length s.old }
    ensures { NumberPut 4 four_bytes s.old (at + place_in) n s.new }
{
    put4(s, at + PLACE_IN, n);
}
