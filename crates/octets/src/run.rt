// Runs of bytes: copied, cleared and moved.
ghost use Rattle.std.specs.Prelude.{◌≡◌, ℕ, ◌+◌, ◌≤◌, length, replicate};
ghost use Rattle.rules.specs.Bytes.{part};
ghost use Rattle.rules.specs.Room.{hash_size};
ghost use Rattle.octets.specs.Splice.{splice};
ghost use Rattle.octets.specs.Octets.{IsHash, HashPut};

use rules::HASH;

// Writes src at `at`.
pub fn copy_in(s: &mut [u8], at: usize, src: &[u8])
    requires { at + length src.now ≤ length s.old }
    ensures { s.new ≡ splice s.old at src.now }
{
    s[at..at + src.len()].copy_from_slice(src);
}

// Makes n bytes zero.
pub fn clear(s: &mut [u8], at: usize, n: usize)
    requires { at + n ≤ length s.old }
    ensures { s.new ≡ splice s.old at (replicate n 0) }
{
    s[at..at + n].fill(0);
}

// Moves len bytes up by `by`. It goes from the end, so that no byte is written before it is read, and the compiler
// makes one move of memory of it: `copy_within` stays a loop, and a write before many rows took half as long again.
pub fn move_up(s: &mut [u8], at: usize, len: usize, by: usize)
    requires { at + len + by ≤ length s.old }
    ensures { s.new ≡ splice s.old (at + by) (part at len s.old) }
{
    for k in (0..len).rev() {
        s[at + by + k] = s[at + k];
    }
}

// The N bytes at `at`.
pub(crate) fn bytes_at<const N: usize>(s: &[u8], at: usize) -> [u8; N]
    requires { at + N ≤ length s.now }
    ensures { result ≡ part at N s.now }
{
    let mut bytes = [0; N];
    bytes.copy_from_slice(&s[at..at + N]);
    bytes
}

// The sixteen bytes at `at`.
pub fn get_hash(s: &[u8], at: usize) -> [u8; HASH]
    requires { at + hash_size ≤ length s.now }
    ensures { IsHash s.now at result }
{
    bytes_at(s, at)
}

// Writes sixteen bytes.
pub fn put_hash(s: &mut [u8], at: usize, h: [u8; HASH])
    requires { at + hash_size ≤ length s.old }
    ensures { HashPut s.old at h s.new }
{
    copy_in(s, at, &h);
}
