// Text: words, decimal numbers and hex written into a slice that the caller lends.
// Each function answers the place after what it wrote. It uses the crates rules and octets.
#![tactic(auto)]

ghost use Rattle.std.specs.Prelude.{◌≡◌, ◌+◌, ◌*◌, ◌<◌, ◌≤◌, length};
ghost use Rattle.rules.specs.Report.{decimal, hex, hex_digit, rev_text};
ghost use Rattle.text.specs.Text.{rev_most, Put, PutWithin};

use octets::run::copy_in;
use rules::{HASH, Revision};

// The most digits of a number of 32 bits.
pub const DECIMAL: usize = 10;

pub const DASH: [u8; 1] = *b"-";

// The most bytes of a revision. Hex has two digits a byte.
pub const REV_MOST: usize = DECIMAL + DASH.len() + 2 * HASH;

// The digit 0, and the letter a less ten, of which hex digits past 9 are counted.
const ZERO: u8 = b'0';

const LETTERS: u8 = b'a' - 10;

// Writes a word.
pub fn put_word(s: &mut [u8], at: usize, word: &[u8]) -> usize
    requires { at + length word.now ≤ length s.old }
    ensures { Put word.now s.old at result s.new }
{
    copy_in(s, at, word);
    at + word.len()
}

// How many digits a number has.
pub fn decimal_size(v: u64) -> usize
    ensures { result ≡ length (decimal v) }
{
    v.checked_ilog10().unwrap_or(0) as usize + 1
}

// Writes a number in decimal: the digits before the last, then the last. It does so by hand, since
// `write!` into a `Cursor` took three times as long for the short numbers that most are.
pub fn put_decimal(s: &mut [u8], at: usize, v: u64) -> usize
    requires { at + length (decimal v) ≤ length s.old }
    ensures { Put (decimal v) s.old at result s.new }
{
    if v < 10 {
        s[at] = ZERO + (v as u8);
        return at + 1;
    }
    let next = put_decimal(s, at, v / 10);
    s[next] = ZERO + ((v % 10) as u8);
    next + 1
}

// The library's `char::from_digit` would be no plainer: its char would be unwrapped and cast.
fn hex_digit(n: u8) -> u8
    requires { n < 16 }
    ensures { result ≡ hex_digit n }
{
    if n < 10 {
        return ZERO + n;
    }
    LETTERS + n
}

// Writes bytes as hex, two digits each.
pub fn put_hex(s: &mut [u8], at: usize, bytes: &[u8]) -> usize
    requires { at + 2 * length bytes.now ≤ length s.old }
    ensures { Put (hex bytes.now) s.old at result s.new }
{
    let mut next = at;
    for b in bytes {
        s[next] = hex_digit(*b / 16);
        s[next + 1] = hex_digit(*b % 16);
        next += 2;
    }
    next
}

// A revision as number and hash.
pub fn put_rev(s: &mut [u8], at: usize, rev: Revision) -> usize
    requires { at + rev_most ≤ length s.old }
    ensures { PutWithin rev_most (rev_text rev) s.old at result s.new }
{
    let dash = put_decimal(s, at, rev.number.0 as u64);
    let h = put_word(s, dash, &DASH);
    put_hex(s, h, &rev.hash)
}
