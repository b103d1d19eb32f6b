// Tokens: the white space, strings, numbers and names of JSON (RFC 8259) passed over in a text that the
// caller lends, and the scalars made of them. Each function answers a place in the text, or that no such
// token stands there. It uses the crate rules in its theorems alone, and knows nothing of documents.
#![tactic(auto)]

ghost use Rattle.std.specs.Prelude.{◌≡◌, ◌+◌, ◌<◌, ◌≤◌, length, get_or, drop, All};
ghost use Rattle.json_text.specs.Grammar.{byte, range, utf8, utf8_three, utf8_four, simple, hex, char, ◌then◌, ◌or◌, option, digit, int, frac, exp, number, literal, string, scalar, white};
ghost use Rattle.json_text.specs.Skips.{WsTo, Ends, Skips, Placed, Here, RunTo, SkipsSome, Exact, PlainByte, PlainTo, IfSo, Whether, spelling, in_turn};

// The bytes of a character after its first, where RFC 3629 sets no narrower range.
const TAIL: (u8, u8) = (0x80, 0xBF);

// The bytes of a string that are looked at together.
const BLOCK: usize = 16;

// ---- Bytes and white space

// The byte at `at`, or 0 past the end.
pub fn peek(s: &[u8], at: usize) -> u8
    ensures { result ≡ get_or s.now at 0 }
{
    s.get(at).copied().unwrap_or(0)
}

// Whether white space stands at `at`.
fn white_at(s: &[u8], at: usize) -> bool
    ensures { Here white s.now at result }
{
    let b = peek(s, at);
    b == b' ' || b == b'\t' || b == b'\n' || b == b'\r'
}

// The place after the white space at `at`. (A loop here and below: it looks for a place in the whole text,
// where take_while and count would number the bytes of a slice of it and add.)
pub fn skip_ws(s: &[u8], at: usize) -> usize
    requires { at ≤ length s.now }
    ensures { WsTo s.now at result }
{
    let mut i = at;
    while white_at(s, i) {
        i += 1;
    }
    i
}

// Whether one of two bytes stands at `at`.
fn one_of(s: &[u8], at: usize, x: u8, y: u8) -> bool
    requires { (0 < x) × (0 < y) }
    ensures { Here (byte x or byte y) s.now at result }
{
    let b = peek(s, at);
    b == x || b == y
}

// Whether a byte from lo to hi stands at `at`.
fn in_range(s: &[u8], at: usize, lo: u8, hi: u8) -> bool
    requires { 0 < lo }
    ensures { Here (range lo hi) s.now at result }
{
    let b = peek(s, at);
    lo <= b && b <= hi
}

// ---- UTF-8 (RFC 3629)

// Passes over a byte of each range in turn.
fn skip_ranges(s: &[u8], at: usize, ranges: &[(u8, u8)]) -> Option<usize>
    requires { (0 < length ranges.now) × All (λ r. 0 < r.0) ranges.now }
    ensures { Exact (in_turn ranges.now) s.now at result }
{
    let mut i = at;
    for r in ranges {
        if !in_range(s, i, r.0, r.1) {
            return None;
        }
        i += 1;
    }
    Some(i)
}

// Passes over a character of two bytes or more.
fn skip_utf8(s: &[u8], at: usize) -> Option<usize>
    ensures { Exact utf8 s.now at result }
{
    let b = peek(s, at);
    if b < 0xE0 {
        return skip_ranges(s, at, &[(0xC2, 0xDF), TAIL]);
    }
    if b < 0xF0 {
        return skip_utf8_three(s, at);
    }
    skip_utf8_four(s, at)
}

// Passes over a character of three bytes: neither overlong nor a surrogate.
fn skip_utf8_three(s: &[u8], at: usize) -> Option<usize>
    ensures { Exact utf8_three s.now at result }
{
    let b = peek(s, at);
    if b < 0xE1 {
        return skip_ranges(s, at, &[(0xE0, 0xE0), (0xA0, 0xBF), TAIL]);
    }
    if b < 0xED {
        return skip_ranges(s, at, &[(0xE1, 0xEC), TAIL, TAIL]);
    }
    if b < 0xEE {
        return skip_ranges(s, at, &[(0xED, 0xED), (0x80, 0x9F), TAIL]);
    }
    skip_ranges(s, at, &[(0xEE, 0xEF), TAIL, TAIL])
}

// Passes over a character of four bytes: not overlong, and at most 10FFFF.
fn skip_utf8_four(s: &[u8], at: usize) -> Option<usize>
    ensures { Exact utf8_four s.now at result }
{
    let b = peek(s, at);
    if b < 0xF1 {
        return skip_ranges(s, at, &[(0xF0, 0xF0), (0x90, 0xBF), TAIL, TAIL]);
    }
    if b < 0xF4 {
        return skip_ranges(s, at, &[(0xF1, 0xF3), TAIL, TAIL, TAIL]);
    }
    skip_ranges(s, at, &[(0xF4, 0xF4), (0x80, 0x8F), TAIL, TAIL])
}

// ---- Strings

// Whether a byte that may follow a backslash alone stands at `at`.
fn simple_at(s: &[u8], at: usize) -> bool
    ensures { Here simple s.now at result }
{
    matches!(
        peek(s, at),
        b'"' | b'\\' | b'/' | b'b' | b'f' | b'n' | b'r' | b't'
    )
}

// Whether a hex digit stands at `at`.
fn hex_at(s: &[u8], at: usize) -> bool
    ensures { Here hex s.now at result }
{
    peek(s, at).is_ascii_hexdigit()
}

// Passes over four hex digits.
fn skip_hex(s: &[u8], at: usize) -> Option<usize>
    requires { at ≤ length s.now }
    ensures { Exact (hex then hex then hex then hex) s.now at result }
{
    if hex_at(s, at) && hex_at(s, at + 1) && hex_at(s, at + 2) && hex_at(s, at + 3) {
        return Some(at + 4);
    }
    None
}

// Passes over a character of a string.
fn skip_char(s: &[u8], at: usize) -> Option<usize>
    requires { at ≤ length s.now }
    ensures { Exact char s.now at result }
{
    let b = peek(s, at);
    if b == b'\\' {
        if peek(s, at + 1) == b'u' {
            return skip_hex(s, at + 2);
        }
        if simple_at(s, at + 1) {
            return Some(at + 2);
        }
        return None;
    }
    if 127 < b {
        return skip_utf8(s, at);
    }
    if b < b' ' {
        return None;
    }
    if b == b'"' {
        return None;
    }
    Some(at + 1)
}

// Whether a byte is a character of a string by itself: ASCII, no control, quotation mark or backslash.
fn is_plain(b: u8) -> bool
    ensures { Whether (PlainByte b) result }
{
    b' ' <= b && b <= 127 && b != b'"' && b != b'\\'
}

// Whether a block of bytes at `at` is plain. It looks at each byte, so that the compiler can look at
// them all at once.
fn plain_block(s: &[u8], at: usize) -> bool
    requires { at ≤ length s.now }
    ensures { IfSo (PlainTo s.now at (at + 16)) result }
{
    if s.len() - at < BLOCK {
        return false;
    }
    let mut plain = true;
    for b in &s[at..at + BLOCK] {
        plain &= is_plain(*b);
    }
    plain
}

// The place after the blocks of plain bytes at `at`.
fn skip_blocks(s: &[u8], at: usize) -> usize
    requires { at ≤ length s.now }
    ensures { PlainTo s.now at result }
{
    let mut i = at;
    while plain_block(s, i) {
        i += BLOCK;
    }
    i
}

// The place after the plain bytes at `at`, which most strings hold alone.
fn skip_plain(s: &[u8], at: usize) -> usize
    requires { at ≤ length s.now }
    ensures { PlainTo s.now at result }
{
    let mut i = skip_blocks(s, at);
    while is_plain(peek(s, i)) {
        i += 1;
    }
    i
}

// Passes over a string.
pub fn skip_string(s: &[u8], at: usize) -> Option<usize>
    ensures { Exact string s.now at result }
{
    if peek(s, at) != b'"' {
        return None;
    }
    let mut i = skip_plain(s, at + 1);
    while peek(s, i) != b'"' {
        let e = skip_char(s, i)?;
        i = skip_plain(s, e);
    }
    Some(i + 1)
}

// ---- Numbers

// Whether a digit stands at `at`.
fn digit_at(s: &[u8], at: usize) -> bool
    ensures { Here digit s.now at result }
{
    peek(s, at).is_ascii_digit()
}

// The place after the digits at `at`.
fn skip_digits(s: &[u8], at: usize) -> usize
    requires { at ≤ length s.now }
    ensures { RunTo digit s.now at result }
{
    let mut i = at;
    while digit_at(s, i) {
        i += 1;
    }
    i
}

// Passes over one digit or more.
fn skip_some_digits(s: &[u8], at: usize) -> Option<usize>
    ensures { SkipsSome digit s.now at result }
{
    if digit_at(s, at) {
        return Some(skip_digits(s, at + 1));
    }
    None
}

// Passes over an exponent, if there is one: the end of a number.
fn skip_exp(s: &[u8], at: usize) -> Option<usize>
    requires { at ≤ length s.now }
    ensures { Skips (option exp) s.now at result }
{
    if one_of(s, at, b'e', b'E') {
        if one_of(s, at + 1, b'-', b'+') {
            return skip_some_digits(s, at + 2);
        }
        return skip_some_digits(s, at + 1);
    }
    Some(at)
}

// Passes over a fraction, if there is one, and the end of a number.
fn skip_frac(s: &[u8], at: usize) -> Option<usize>
    requires { at ≤ length s.now }
    ensures { Skips (option frac then option exp) s.now at result }
{
    if peek(s, at) != b'.' {
        return skip_exp(s, at);
    }
    // No `?`: an edit tries the answer of a number that ends in its point here, and a `?` would refuse it for its form alone.
    let Some(e) = skip_some_digits(s, at + 1) else {
        return None;
    };
    skip_exp(s, e)
}

// Passes over a number without its sign.
fn skip_int(s: &[u8], at: usize) -> Option<usize>
    requires { at ≤ length s.now }
    ensures { Skips (int then option frac then option exp) s.now at result }
{
    if peek(s, at) == b'0' {
        return skip_frac(s, at + 1);
    }
    let e = skip_some_digits(s, at)?;
    skip_frac(s, e)
}

// Passes over a number.
fn skip_number(s: &[u8], at: usize) -> Option<usize>
    requires { at ≤ length s.now }
    ensures { Skips number s.now at result }
{
    if peek(s, at) == b'-' {
        return skip_int(s, at + 1);
    }
    skip_int(s, at)
}

// ---- Names and scalars

// Passes over the bytes of a word.
fn skip_word(s: &[u8], at: usize, word: &[u8]) -> Option<usize>
    requires { at ≤ length s.now }
    ensures { Skips (spelling word.now) s.now at result }
{
    if s[at..].starts_with(word) {
        return Some(at + word.len());
    }
    None
}

// Passes over false, null or true.
fn skip_literal(s: &[u8], at: usize) -> Option<usize>
    requires { at ≤ length s.now }
    ensures { Skips literal s.now at result }
{
    let b = peek(s, at);
    if b == b'f' {
        return skip_word(s, at + 1, b"alse");
    }
    if b == b'n' {
        return skip_word(s, at, b"null");
    }
    skip_word(s, at, b"true")
}

// Passes over a value that is neither an object nor an array, whatever follows it.
fn scalar_end(s: &[u8], at: usize) -> Option<usize>
    requires { at ≤ length s.now }
    ensures { Skips scalar s.now at result }
{
    let b = peek(s, at);
    if b == b'"' {
        return skip_string(s, at);
    }
    if b'a' <= b {
        return skip_literal(s, at);
    }
    skip_number(s, at)
}

// Whether a value can end at `at`: white space, a comma, a colon or a closing bracket stands there, or
// nothing.
pub fn can_end(s: &[u8], at: usize) -> bool
    ensures { Whether (Ends (drop at s.now)) result }
{
    if s.len() <= at {
        return true;
    }
    let b = s[at];
    if b == b',' || b == b'}' || b == b']' || b == b':' {
        return true;
    }
    white_at(s, at)
}

// Passes over a value that is neither an object nor an array, where what follows can follow one.
pub fn skip_scalar(s: &[u8], at: usize) -> Option<usize>
    requires { at ≤ length s.now }
    ensures { Placed scalar s.now at result }
{
    let e = scalar_end(s, at)?;
    if can_end(s, e) {
        return Some(e);
    }
    None
}
