// A write whose form is good: planned, judged and applied.
ghost use Rattle.std.specs.Prelude.{◌≡◌};
ghost use Rattle.writes.specs.Path.{write_of};
ghost use Rattle.writes.specs.Judge.{CanWrite, Wrote};

use crate::apply::apply;
use crate::judge::judge;
use crate::plan::plan_path;
use rules::{Content, HASH, Outcome, Refusal, RevNumber};
use store::change::add_document;
use store::read::{body_at, body_of};

// The write once its document was looked for. Where that is absent it goes in first.
pub fn write_to(
    b: &mut [u8],
    found: Result<usize, usize>,
    id: &[u8],
    number: RevNumber,
    path: &[u8],
    content: Content,
) -> Result<Outcome, Refusal>
    requires { CanWrite b.old found (write_of id.now number path.now content) }
    ensures { Wrote b.old (write_of id.now number path.now content) result b.new }
{
    let body = body_at(b, found);
    let p = plan_path(b, body, number, path, content);
    judge(b, found, p)?;
    if p.reach == 0 {
        return Ok(Outcome::Unchanged);
    }
    let m = p.reach.min(path.len() / HASH);
    match found {
        Ok(d) => {
            apply(b, d, body, number, path, content, m);
            Ok(Outcome::Changed)
        }
        Err(d) => {
            add_document(b, d, id);
            apply(b, d, body_of(b, d), number, path, content, m);
            Ok(Outcome::Changed)
        }
    }
}
