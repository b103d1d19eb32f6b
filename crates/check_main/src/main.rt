// Check: reads an image from standard input and writes its report to standard output. It opens no file
// and changes none. The report's text is promised by the crate report; only reading and writing are not.
#![tactic(auto)]

ghost use Rattle.std.specs.Prelude.{◌≡◌, ◌≤◌, length, IfOk};
ghost use Rattle.rules.specs.Report.{input_most};

use layout::IMAGE_MOST;
use report::{REPORT_MOST, put_report};
use std::io::{self, ErrorKind, Read, Write};
use std::rt::{Stderr, Stdin};

// One byte more than the largest image has, so that a longer input is seen to be too long.
const INPUT: usize = IMAGE_MOST + 1;

// How often a read that a signal interrupted is tried again.
const TRIES: usize = 1000;

// Reads until buf is full, the input ends or a read fails: no byte past `input_most`. A failed read is
// never taken for the end.
fn read_input(mut stdin: Stdin, buf: &mut [u8]) -> io::Result<usize>
    requires { length buf.old ≡ input_most }
    ensures { IfOk result (λ n. n ≤ length buf.new) }
{
    let mut at = 0;
    let mut tries = TRIES;
    while at < buf.len() {
        match stdin.read(&mut buf[at..]) {
            Ok(0) => break,
            Ok(n) => at += n,
            Err(e) if e.kind() == ErrorKind::Interrupted && 0 < tries => tries -= 1,
            Err(e) => return Err(e),
        }
    }
    Ok(at)
}

// Says on standard error what went wrong. Where that fails too, nobody is left to be told.
fn complain(mut stderr: Stderr, text: &[u8]) {
    let _ = stderr.write_all(text);
}

// Writes the report of what was read to standard output.
fn write_report(rt: &HostRuntime, image: &[u8]) {
    let mut out = [0u8; REPORT_MOST];
    let n = put_report(image, &mut out);
    let is_written = rt.stdout().write_all(&out[..n]).is_ok();
    if !is_written {
        complain(
            rt.stderr(),
            b"check: the report could not be written, so what was printed of it does not count. See that standard output takes what is written to it, and check again.\n",
        );
    }
}

fn main(rt: HostRuntime) {
    let mut input = [0u8; INPUT];
    match read_input(rt.stdin(), &mut input) {
        Ok(n) => write_report(&rt, &input[..n]),
        Err(_) => complain(
            rt.stderr(),
            b"check: the input could not be read, so nothing was judged. See that it is a file that you may read, and check it again.\n",
        ),
    }
}
