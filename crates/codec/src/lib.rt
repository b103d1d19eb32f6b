// Codec: loading a stored image into a buffer, saving the replica in a buffer as its image, and telling
// whether bytes are such a buffer.
// Head, entries and rows are copied as bytes: only the places of the entries differ between an image
// and a buffer. It uses the crates rules, octets, layout, store and faults, and the laws of the crate images.
#![tactic(auto)]

ghost use Rattle.std.specs.Prelude.{◌≡◌, length};
ghost use Rattle.rules.specs.Image.{save, replica_in};
ghost use Rattle.rules.specs.Layout.{head_size};
ghost use Rattle.rules.specs.Outcome.{Does};
ghost use Rattle.octets.specs.Splice.{splice};
ghost use Rattle.store.specs.Storage.{store_size, stored, replica_of, IsStored};
ghost use Rattle.codec.specs.Codec.{moved, CanMove, laid_out, CanLay, CanTake, image_from, CanWrite, Loads, CountsIn, Tells};

use faults::fault;
use layout::entry::{put_place, rows};
use layout::head::{documents, put_edition, put_total, revisions};
use layout::{DOCUMENTS_AT, ENTRY, HEAD, PLACE_IN, ROW, ROWS, SIZE, TOTAL_AT};
use octets::order::same_bytes;
use octets::run::{clear, copy_in};
use rules::{DOCUMENTS, Fault, REVISIONS, Refusal};
use store::read::{documents_held, revisions_held};

// Copies d entries from src to dst. The first gets `first` as its place, and each row of an entry moves
// the next place on by `step`.
fn copy_entries(dst: &mut [u8], src: &[u8], d: usize, first: usize, step: usize)
    requires { CanMove d first step dst.old src.now }
    ensures { dst.new ≡ splice dst.old head_size (moved step first d head_size src.now) }
{
    let mut place = first;
    for i in 0..d {
        let at = HEAD + ENTRY * i;
        let e = at + PLACE_IN;
        copy_in(dst, at, &src[at..e]);
        put_place(dst, at, place as u32);
        place += step * rows(src, at);
    }
}

// Lays the head of src, its first d entries and the rows out in the buffer, with zeros in between.
fn lay_out(b: &mut [u8], src: &[u8], d: usize, rows: &[u8])
    requires { CanLay b.old src.now d rows.now }
    ensures { b.new ≡ laid_out d src.now rows.now }
{
    clear(b, 0, SIZE);
    copy_in(b, DOCUMENTS_AT, &src[DOCUMENTS_AT..TOTAL_AT]);
    copy_entries(b, src, d, 0, 0);
    copy_in(b, ROWS, rows);
}

// Lays an image that has no fault out in the buffer.
fn take_in(b: &mut [u8], image: &[u8])
    requires { CanTake b.old image.now }
    ensures { b.new ≡ stored (replica_in image.now) }
{
    let d = documents(image);
    let body = HEAD + ENTRY * d;
    lay_out(b, image, d, &image[body..]);
}

// Makes the buffer the replica of an image, or leaves it as it was.
pub fn load(b: &mut [u8], image: &[u8]) -> Result<(), (Fault, usize)>
    requires { length b.old ≡ store_size }
    ensures { Loads b.old image.now result b.new }
{
    fault(image)?;
    take_in(b, image);
    Ok(())
}

// Writes the image of d documents and r revisions whose parts stand in b.
fn write_image(b: &[u8], out: &mut [u8], d: usize, r: usize)
    requires { CanWrite b.now out.old d r }
    ensures { out.new ≡ splice out.old 0 (image_from d r b.now) }
{
    let body = HEAD + ENTRY * d;
    let e = ROWS + ROW * r;
    put_edition(out, 1);
    copy_in(out, DOCUMENTS_AT, &b[DOCUMENTS_AT..TOTAL_AT]);
    put_total(out, (body + ROW * r) as u32);
    copy_entries(out, b, d, body, ROW);
    copy_in(out, body, &b[ROWS..e]);
}

// Writes the image of the replica in the buffer, and answers its length.
pub fn save(b: &[u8], out: &mut [u8]) -> Result<usize, Refusal>
    requires { IsStored b.now }
    ensures { Does (save (replica_of b.now) out.old) result out.new }
{
    let d = documents_held(b);
    let r = revisions_held(b);
    let total = HEAD + ENTRY * d + ROW * r;
    if out.len() < total {
        return Err(Refusal::ShortBuffer);
    }
    write_image(b, out, d, r);
    Ok(total)
}

// Whether a buffer with d documents and r revisions is a replica. One scratch serves twice: for what the
// parts of the buffer are, laid out anew, and for their image.
fn holds_replica(b: &[u8], d: usize, r: usize) -> bool
    requires { CountsIn b.now d r }
    ensures { Tells (IsStored b.now) result }
{
    let e = ROWS + ROW * r;
    let size = HEAD + ENTRY * d + ROW * r;
    let mut t = [0u8; SIZE];
    lay_out(&mut t, b, d, &b[ROWS..e]);
    if !same_bytes(b, &t) {
        return false;
    }
    write_image(b, &mut t, d, r);
    fault(&t[..size]).is_ok()
}

// Whether any bytes are a replica in a buffer.
pub fn is_replica(b: &[u8]) -> bool
    ensures { Tells (IsStored b.now) result }
{
    if b.len() != SIZE {
        return false;
    }
    let d = documents(b);
    if DOCUMENTS < d {
        return false;
    }
    let r = revisions(b);
    if REVISIONS < r {
        return false;
    }
    holds_replica(b, d, r)
}
