// The refusals of a write's form, 1 to 3.
ghost use Rattle.std.specs.Prelude.{◌≡◌};
ghost use Rattle.rules.specs.Choice.{first_that};
ghost use Rattle.rules.specs.Write.{Write, bad_path, low_number, form_refusals};
ghost use Rattle.writes.specs.Path.{write_of};
ghost use Rattle.writes.specs.Verdict.{verdict_of};

use rules::{Content, HASH, PATH_HASHES, Refusal, RevNumber};
use store::read::bad_id;

// 2: bytes that are not a multiple of 16, or not 1 to 512 hashes.
fn bad_path(path: &[u8]) -> bool
    ensures { (w : Write) → w.path ≡ path.now → result ≡ bad_path w }
{
    if path.len() % HASH != 0 {
        return true;
    }
    let count = path.len() / HASH;
    if count == 0 {
        return true;
    }
    PATH_HASHES < count
}

// 3: a number smaller than the count of hashes.
fn low_number(number: RevNumber, path: &[u8]) -> bool
    ensures { (w : Write) → w.number ≡ number → w.path ≡ path.now → result ≡ low_number w }
{
    (number.0 as usize) < path.len() / HASH
}

// 1 to 3, in that order; they don't depend on the content.
pub(crate) fn form(id: &[u8], number: RevNumber, path: &[u8]) -> Result<(), Refusal>
    ensures { (c : Content) → result ≡ verdict_of (first_that (form_refusals (write_of id.now number path.now c))) }
{
    if bad_id(id) {
        return Err(Refusal::BadId);
    }
    if bad_path(path) {
        return Err(Refusal::BadPath);
    }
    if low_number(number, path) {
        return Err(Refusal::LowNumber);
    }
    Ok(())
}
