// 23: the contents, sequences aside.
ghost use Rattle.std.specs.Prelude.{◌≡◌, ◌&&◌, ◌+◌, ◌≤◌, eqb, length};
ghost use Rattle.rules.specs.Bytes.{all_zero};
ghost use Rattle.rules.specs.Faults.{bad_contents, bad_entry, not_above};
ghost use Rattle.rules.specs.Layout.{entry_size};
ghost use Rattle.rules.specs.Room.{id_most};
ghost use Rattle.layout.specs.Fields.{entry_place};
ghost use Rattle.faults.specs.Places.{Headed, entry_at, id_before, HasEntry, HasId};

use layout::entry::{id, id_size, place, rows};
use layout::head::{documents, revisions};
use layout::{COUNT_IN, ENTRY, HEAD, ID_IN, ROW};
use octets::order::{all_zero, order_bytes};
use rules::ID_MOST;

// The id of entry i is not above the one before it.
fn id_bad(s: &[u8], i: usize) -> bool
    requires { HasId i s.now }
    ensures { result ≡ not_above (id_before i s.now) (entry_at i s.now).id }
{
    let at = HEAD + ENTRY * i;
    i != 0 && order_bytes(id(s, at - ENTRY), id(s, at)).is_ge()
}

// What fills the id of entry i, which has n bytes, and the byte after it are zero.
fn fill_zero(s: &[u8], i: usize, n: usize) -> bool
    requires { (entry_place i + entry_size ≤ length s.now) × (n ≡ (entry_at i s.now).size) × (n ≤ id_most) }
    ensures { result ≡ (all_zero (entry_at i s.now).fill && eqb (entry_at i s.now).zero 0) }
{
    let at = HEAD + ENTRY * i;
    let a = at + ID_IN + n;
    let e = at + COUNT_IN;
    all_zero(&s[a..e])
}

// An entry that has to give `due` as its first row's place.
fn entry_bad(s: &[u8], i: usize, due: usize) -> bool
    requires { HasEntry i s.now }
    ensures { result ≡ bad_entry due (id_before i s.now) (entry_at i s.now) }
{
    let at = HEAD + ENTRY * i;
    let n = id_size(s, at);
    n == 0
        || ID_MOST < n
        || !fill_zero(s, i, n)
        || rows(s, at) == 0
        || place(s, at) as usize != due
        || id_bad(s, i)
}

pub(crate) fn contents_fault(s: &[u8]) -> Option<usize>
    requires { Headed s.now }
    ensures { result ≡ bad_contents s.now }
{
    let d = documents(s);
    let mut sum = 0;
    for i in 0..d {
        if entry_bad(s, i, HEAD + ENTRY * d + ROW * sum) {
            return Some(i);
        }
        sum += rows(s, HEAD + ENTRY * i);
    }
    (sum != revisions(s)).then_some(d)
}
