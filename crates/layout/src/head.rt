// The fields of a head, which stands at the front.
ghost use Rattle.std.specs.Prelude.{◌≡◌, ℕ, ◌≤◌, length};
ghost use Rattle.rules.specs.Bytes.{be};
ghost use Rattle.rules.specs.Layout.{documents_at, revisions_at, sequence_at, total_at, head_size, head_of};
ghost use Rattle.octets.specs.Splice.{splice};
ghost use Rattle.octets.specs.Octets.{NumberPut};
ghost use Rattle.layout.specs.Fields.{IsField, two_bytes, four_bytes};

use crate::{DOCUMENTS_AT, HEAD_ZERO_AT, REVISIONS_AT, SEQUENCE_AT, TOTAL_AT};
use octets::number::{get2, get4, put2, put4};
use rules::Seq;

pub fn edition(s: &[u8]) -> usize
    requires { head_size ≤ length s.now }
    ensures { IsField two_bytes (head_of s.now).edition result }
{
    get2(s, 0)
}

pub fn documents(s: &[u8]) -> usize
    requires { head_size ≤ length s.now }
    ensures { IsField two_bytes (head_of s.now).documents result }
{
    get2(s, DOCUMENTS_AT)
}

pub fn revisions(s: &[u8]) -> usize
    requires { head_size ≤ length s.now }
    ensures { IsField two_bytes (head_of s.now).revisions result }
{
    get2(s, REVISIONS_AT)
}

pub fn head_zero(s: &[u8]) -> usize
    requires { head_size ≤ length s.now }
    ensures { IsField two_bytes (head_of s.now).zero result }
{
    get2(s, HEAD_ZERO_AT)
}

pub fn sequence(s: &[u8]) -> Seq
    requires { head_size ≤ length s.now }
    ensures { IsField four_bytes (head_of s.now).seq result.0 }
{
    Seq(get4(s, SEQUENCE_AT))
}

pub fn total(s: &[u8]) -> u32
    requires { head_size ≤ length s.now }
    ensures { IsField four_bytes (head_of s.now).total result }
{
    get4(s, TOTAL_AT)
}

pub fn put_edition(s: &mut [u8], n: usize)
    requires { head_size ≤ length s.old }
    ensures { s.new ≡ splice s.old 0 (be 2 n) }
{
    put2(s, 0, n);
}

pub fn put_documents(s: &mut [u8], n: usize)
    requires { head_size ≤ length s.old }
    ensures { s.new ≡ splice s.old documents_at (be 2 n) }
{
    put2(s, DOCUMENTS_AT, n);
}

pub fn put_revisions(s: &mut [u8], n: usize)
    requires { head_size ≤ length s.old }
    ensures { s.new ≡ splice s.old revisions_at (be 2 n) }
{
    put2(s, REVISIONS_AT, n);
}

pub fn put_sequence(s: &mut [u8], q: Seq)
    requires { head_size ≤ length s.old }
    ensures { NumberPut 4 four_bytes s.old sequence_at q.0 s.new }
{
    put4(s, SEQUENCE_AT, q.0);
}

pub fn put_total(s: &mut [u8], n: u32)
    requires { head_size ≤ length s.old }
    ensures { NumberPut 4 four_bytes s.old total_at n s.new }
{
    put4(s, TOTAL_AT, n);
}
