// An answer of several numbers.
ghost use Rattle.std.specs.Prelude.{◌≡◌, ◌*◌, ◌≤◌, length};
ghost use Rattle.rules.specs.Read.{front};
ghost use Rattle.refile.specs.Boundary.{numbers};

use octets::number::put4;

// Writes the last four bytes of each number, one after the other, at the front.
pub(crate) fn put_numbers(out: &mut [u8], ns: &[usize])
    requires { 4 * length ns.now ≤ length out.old }
    ensures { out.new ≡ front (numbers ns.now) out.old }
{
    for (i, n) in ns.iter().enumerate() {
        put4(out, 4 * i, (*n % 4294967296) as u32);
    }
}
