// The fields of a revision's row, which begins at `at`.
ghost use Rattle.std.specs.Prelude.{ℕ, ◌+◌, ◌≤◌, length};
ghost use Rattle.rules.specs.Bytes.{part};
ghost use Rattle.rules.specs.Layout.{row_size, row_of};
ghost use Rattle.layout.specs.Fields.{IsField, IsHashField, one_byte, two_bytes, four_bytes, eight_bytes};

use crate::{HASH_IN, KIND_IN, KNOWN_IN, LABEL_IN, PARENT_HASH_IN, ROW_ZERO_IN};
use octets::number::{get2, get4, get8};
use octets::run::get_hash;
use rules::{HASH, RevNumber};

pub fn number(s: &[u8], at: usize) -> RevNumber
    requires { at + row_size ≤ length s.now }
    ensures { IsField four_bytes (row_of (part at row_size s.now)).rev.number.0 result.0 }
{
    RevNumber(get4(s, at))
}

pub fn hash(s: &[u8], at: usize) -> [u8; HASH]
    requires { at + row_size ≤ length s.now }
    ensures { IsHashField (row_of (part at row_size s.now)).rev.hash result }
{
    get_hash(s, at + HASH_IN)
}

pub fn kind(s: &[u8], at: usize) -> u8
    requires { at + row_size ≤ length s.now }
    ensures { IsField one_byte (row_of (part at row_size s.now)).kind result }
{
    s[at + KIND_IN]
}

// The flag: 0 where the parent is not known.
pub fn known(s: &[u8], at: usize) -> u8
    requires { at + row_size ≤ length s.now }
    ensures { IsField one_byte (row_of (part at row_size s.now)).flag result }
{
    s[at + KNOWN_IN]
}

pub fn row_zero(s: &[u8], at: usize) -> usize
    requires { at + row_size ≤ length s.now }
    ensures { IsField two_bytes (row_of (part at row_size s.now)).zero result }
{
    get2(s, at + ROW_ZERO_IN)
}

pub fn parent(s: &[u8], at: usize) -> [u8; HASH]
    requires { at + row_size ≤ length s.now }
    ensures { IsHashField (row_of (part at row_size s.now)).parent result }
{
    get_hash(s, at + PARENT_HASH_IN)
}

pub fn label(s: &[u8], at: usize) -> u64
    requires { at + row_size ≤ length s.now }
    ensures { IsField eight_bytes (row_of (part at row_size s.now)).label result }
{
    get8(s, at + LABEL_IN)
}
