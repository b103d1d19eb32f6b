// Runs of bytes compared.
ghost use Rattle.std.specs.Prelude.{◌≡◌, ◌+◌, ◌≤◌, length};
ghost use Rattle.rules.specs.Bytes.{part, all_zero};
ghost use Rattle.rules.specs.Order.{order_bytes, is_equal};
ghost use Rattle.rules.specs.Room.{hash_size};

use crate::run::bytes_at;
use rules::HASH;
use std::cmp::Ordering;

// Byte by byte, a prefix first. Most ids that are compared differ in their first byte, which is looked at without a
// call.
pub fn order_bytes(a: &[u8], b: &[u8]) -> Ordering
    ensures { result ≡ order_bytes a.now b.now }
{
    match (a, b) {
        ([x, ..], [y, ..]) if *x != *y => x.cmp(y),
        _ => order_whole(a, b),
    }
}

// The same by the library. Kept out of line, since `order_bytes` would be too large to go in line with it.
#[inline(never)]
fn order_whole(a: &[u8], b: &[u8]) -> Ordering
    ensures { result ≡ order_bytes a.now b.now }
{
    a.cmp(&b)
}

// A hash with the one that stands at `at`, "first byte first": as numbers, whose order is the same.
pub fn order_hash_at(h: [u8; HASH], s: &[u8], at: usize) -> Ordering
    requires { at + hash_size ≤ length s.now }
    ensures { result ≡ order_bytes h (part at hash_size s.now) }
{
    u128::from_be_bytes(h).cmp(&u128::from_be_bytes(bytes_at(s, at)))
}

// Whether two runs are the same.
pub fn same_bytes(a: &[u8], b: &[u8]) -> bool
    ensures { result ≡ is_equal (order_bytes a.now b.now) }
{
    a == b
}

// Whether every byte is zero.
pub fn all_zero(s: &[u8]) -> bool
    ensures { result ≡ all_zero s.now }
{
    s.iter().all(|b| *b == 0)
}
