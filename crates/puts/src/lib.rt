// Puts: a document's leaves put out as lines of JSON, into a buffer that the caller lends.
// It uses the crates rules, text, tree, store, lines, fields and reads, and the laws of the crates octets and
// union.
#![tactic(auto)]

mod line;
mod size;
mod words;

ghost use Rattle.std.specs.Prelude.{◌≡◌};
ghost use Rattle.rules.specs.Outcome.{Does};
ghost use Rattle.text.specs.Text.{Put};
ghost use Rattle.tree.specs.Table.{tree_in};
ghost use Rattle.store.specs.Storage.{replica_of, IsStored};
ghost use Rattle.lines.specs.Put.{lines_text, put_out, put_out_size};
ghost use Rattle.puts.specs.Puts.{CanPut, CanPutLines, Opens, lines_in};

use fields::is_unwritable;
use line::put_line;
use reads::document;
use rules::{HASH, PATH_HASHES, Refusal};
use size::lines_size;
use tree::table::{Body, kind_at, rev_at};

// The bytes of the longest path.
const PATH: usize = PATH_HASHES * HASH;

// "Putting out checks 1, 12, 43".
fn rows_of(b: &[u8], id: &[u8]) -> Result<Body, Refusal>
    requires { IsStored b.now }
    ensures { Opens b.now id.now result }
{
    let body = document::rows_of(b, id)?;
    if is_unwritable(id) {
        return Err(Refusal::UnwritableId);
    }
    Ok(body)
}

// Writes a line for each leaf at the front of out, from the last row down.
fn put_lines(b: &[u8], body: Body, id: &[u8], out: &mut [u8]) -> usize
    requires { CanPutLines body b.now id.now out.old }
    ensures { Put (lines_text id.now (tree_in body b.now)) out.old 0 result out.new }
{
    let mut path = [0u8; PATH];
    let mut at = 0;
    for i in (0..body.rows).rev() {
        if let Some(content) = kind_at(b, body, i) {
            let rev = rev_at(b, body, i);
            at = put_line(b, body, id, rev, content, &mut path, out, at);
        }
    }
    at
}

// The lines of the leaves among the rows. They are counted before the first is written.
fn answer_lines(b: &[u8], body: Body, id: &[u8], out: &mut [u8]) -> Result<usize, Refusal>
    requires { CanPut body b.now id.now }
    ensures { Does (lines_in id.now (tree_in body b.now) out.old) result out.new }
{
    let size = lines_size(b, body, id);
    if out.len() < size {
        return Err(Refusal::ShortBuffer);
    }
    Ok(put_lines(b, body, id, out))
}

// How many bytes `put_out` would write, so that a caller can lend enough.
pub fn put_out_size(b: &[u8], id: &[u8]) -> Result<usize, Refusal>
    requires { IsStored b.now }
    ensures { result ≡ put_out_size (replica_of b.now) id.now }
{
    Ok(lines_size(b, rows_of(b, id)?, id))
}

// Writes the lines of a document's leaves, the highest first, and answers how many bytes they are.
pub fn put_out(b: &[u8], id: &[u8], out: &mut [u8]) -> Result<usize, Refusal>
    requires { IsStored b.now }
    ensures { Does (put_out (replica_of b.now) id.now out.old) result out.new }
{
    answer_lines(b, rows_of(b, id)?, id, out)
}
