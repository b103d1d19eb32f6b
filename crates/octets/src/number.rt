// Numbers of two, four and eight bytes, big-endian. Each width has functions of its own, since the gate
// holds every public function to a theorem of one outcome, and reads none of a generic one.
ghost use Rattle.std.specs.Prelude.{◌≡◌, ℕ, ◌+◌, ◌≤◌, length};
ghost use Rattle.rules.specs.Bytes.{be};
ghost use Rattle.octets.specs.Splice.{splice};
ghost use Rattle.octets.specs.Octets.{IsNumber, NumberPut};

use crate::run::{bytes_at, copy_in};

// The number that two bytes are.
pub fn get2(s: &[u8], at: usize) -> usize
    requires { at + 2 ≤ length s.now }
    ensures { IsNumber 2 65536 s.now at result }
{
    usize::from(u16::from_be_bytes(bytes_at(s, at)))
}

// The number that four bytes are.
pub fn get4(s: &[u8], at: usize) -> u32
    requires { at + 4 ≤ length s.now }
    ensures { IsNumber 4 4294967296 s.now at result }
{
    u32::from_be_bytes(bytes_at(s, at))
}

// The number that eight bytes are.
pub fn get8(s: &[u8], at: usize) -> u64
    requires { at + 8 ≤ length s.now }
    ensures { IsNumber 8 18446744073709551616 s.now at result }
{
    u64::from_be_bytes(bytes_at(s, at))
}

// Writes a number's last two bytes.
pub fn put2(s: &mut [u8], at: usize, v: usize)
    requires { at + 2 ≤ length s.old }
    ensures { s.new ≡ splice s.old at (be 2 v) }
{
    copy_in(s, at, &((v % 65536) as u16).to_be_bytes());
}

// Writes a number's four bytes.
pub fn put4(s: &mut [u8], at: usize, v: u32)
    requires { at + 4 ≤ length s.old }
    ensures { NumberPut 4 4294967296 s.old at v s.new }
{
    copy_in(s, at, &v.to_be_bytes());
}

// Writes a number's eight bytes.
pub fn put8(s: &mut [u8], at: usize, v: u64)
    requires { at + 8 ≤ length s.old }
    ensures { NumberPut 8 18446744073709551616 s.old at v s.new }
{
    copy_in(s, at, &v.to_be_bytes());
}
