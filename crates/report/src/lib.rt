// Report: what the check program prints for the bytes of an image.
// It takes every input of every length. It uses the crates rules, octets, layout, tree, store, text,
// faults and codec, and the laws of the crates images, union and reads.
#![tactic(auto)]

mod line;
mod words;

ghost use Rattle.std.specs.Prelude.{[], ◌≤◌, length, take};
ghost use Rattle.rules.specs.Outcome.{Does};
ghost use Rattle.rules.specs.Read.{reads};
ghost use Rattle.rules.specs.Report.{report, read_report};
ghost use Rattle.text.specs.Text.{PutWithin};
ghost use Rattle.report.specs.Lines.{report_most};
ghost use Rattle.report.specs.Loaded.{loaded_text, CanPutLoaded};

use codec::load;
use layout::SIZE;
use line::{put_refused, put_replica};
use octets::run::copy_in;
use rules::{DOCUMENTS, Fault, Refusal};
use words::{HEAD_MOST, LINE_MOST};

// The longest report: a head line, and a line for each document.
pub const REPORT_MOST: usize = HEAD_MOST + LINE_MOST * DOCUMENTS;

// The report of what a load answered and left in b.
fn put_loaded(loaded: Result<(), (Fault, usize)>, b: &[u8], s: &mut [u8]) -> usize
    requires { CanPutLoaded loaded b.now s.old }
    ensures { PutWithin report_most (loaded_text loaded b.now) s.old 0 result s.new }
{
    match loaded {
        Ok(()) => put_replica(b, s),
        Err((f, place)) => put_refused(s, f, place as u32),
    }
}

// Hands the first n bytes of s over, or refuses where they don't fit.
fn hand_over(s: &[u8], n: usize, out: &mut [u8]) -> Result<usize, Refusal>
    requires { n ≤ length s.now }
    ensures { Does (reads [] n (take n s.now) out.old) result out.new }
{
    if out.len() < n {
        return Err(Refusal::ShortBuffer);
    }
    copy_in(out, 0, &s[..n]);
    Ok(n)
}

// Writes the report of an image at the front of a buffer that holds every report.
pub fn put_report(image: &[u8], out: &mut [u8; REPORT_MOST]) -> usize
    ensures { PutWithin report_most (report image.now) out.old 0 result out.new }
{
    let mut b = [0u8; SIZE];
    let loaded = load(&mut b, image);
    put_loaded(loaded, &b, out)
}

// The same for a buffer of any length: 14 where the report doesn't fit.
pub fn report(image: &[u8], out: &mut [u8]) -> Result<usize, Refusal>
    ensures { Does (read_report image.now out.old) result out.new }
{
    let mut t = [0u8; REPORT_MOST];
    let n = put_report(image, &mut t);
    hand_over(&t, n, out)
}
