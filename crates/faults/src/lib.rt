// Faults: what is wrong with the bytes of an image, and where: the refusals 20 to 26.
// It takes every input of every length and writes nothing. It uses the crates rules, octets and layout, and
// the laws of the crate images. Rows are searched by the crate tree.
#![tactic(auto)]

ghost use Rattle.std.specs.Prelude.{◌≡◌, option_map};
ghost use Rattle.rules.specs.Choice.{first_that};
ghost use Rattle.rules.specs.Faults.{faults};
ghost use Rattle.faults.specs.Places.{Headed};
ghost use Rattle.faults.specs.Judged.{judged, body_fault, NumberOf};

use crate::contents::contents_fault;
use crate::each::rule_fault;
use crate::head::head_bad;
use crate::links::AskLinks;
use crate::rows::AskRows;
use crate::sequence::sequence_fault;
use layout::HEAD;
use layout::head::edition;
use rules::Fault;

mod contents;
mod each;
mod head;
mod links;
mod rows;
mod sequence;

// The number of a fault. It is no `From`, since neither `Fault` nor `u32` is a type of this crate.
pub fn fault_number(f: Fault) -> u32
    ensures { NumberOf f result }
{
    match f {
        Fault::TooShort => 20,
        Fault::BadEdition => 21,
        Fault::BadHead => 22,
        Fault::BadContents => 23,
        Fault::BadSequence => 24,
        Fault::BadRow => 25,
        Fault::BadParent => 26,
    }
}

// The fault at its place, if there is one.
fn at(f: Fault, place: Option<usize>) -> Result<(), (Fault, usize)>
    ensures { judged result ≡ option_map (λ p. (f, p)) place }
{
    place.map_or(Ok(()), |p| Err((f, p)))
}

// 23 to 26, in this order.
fn body_fault(s: &[u8]) -> Result<(), (Fault, usize)>
    requires { Headed s.now }
    ensures { judged result ≡ body_fault s.now }
{
    at(Fault::BadContents, contents_fault(s))?;
    at(Fault::BadSequence, sequence_fault(s))?;
    at(Fault::BadRow, rule_fault::<AskRows>(s))?;
    at(Fault::BadParent, rule_fault::<AskLinks>(s))
}

// The first fault of an image, of whatever bytes it is.
pub fn fault(s: &[u8]) -> Result<(), (Fault, usize)>
    ensures { judged result ≡ first_that (faults s.now) }
{
    if s.len() < HEAD {
        return Err((Fault::TooShort, 0));
    }
    if edition(s) != 1 {
        return Err((Fault::BadEdition, 0));
    }
    if head_bad(s) {
        return Err((Fault::BadHead, 0));
    }
    body_fault(s)
}
