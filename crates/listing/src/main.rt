// The listing program: it reads a recipe file from standard input and prints what its run comes to. One byte more than a file may have is
// read, so that a longer input is refusal 1. An input that cannot be read whole has no listing: a line on standard error says why, and nothing
// is printed. So does a line where the listing cannot be written. The program's status is 0 all the same: ./listing sees to that.

#![tactic(auto)]

ghost use Rattle.std.specs.Prelude.{◌≤◌, length, IfOk};

use std::fmt::InlineText;
use std::io;
use std::io::Read;

// Reads the file and prints its listing, or says why not.
fn main(rt: HostRuntime) {
    let mut file = [0u8; 16385];
    match read_full(&mut rt.stdin(), &mut file) {
        Ok(n) => print(&rt, &file[..n]),
        Err(e) => fail(&rt, "listing: the input cannot be read", e),
    }
}

// Reads until the buffer is full or the input ends, and returns how many bytes it put at the buffer's start. A loop, since std's `read_exact` does
// not say how many bytes came where the input ends early.
fn read_full(input: &mut impl Read, buffer: &mut [u8]) -> io::Result<usize>
    ensures { IfOk result (λ n. n ≤ length buffer.new) }
{
    let mut done = 0;
    while done < buffer.len() {
        let n = input.read(&mut buffer[done..])?;
        if n == 0 {
            break;
        }
        done += n;
    }
    Ok(done)
}

// Prints the listing of a file.
fn print(rt: &(impl Print + Eprint), file: &[u8]) {
    let mut text = [0u8; 49152];
    let end = lister::list(file, &mut text);
    if let Err(e) = rt.write_all(&text[..end]) {
        fail(rt, "listing: the listing cannot be written", e);
    }
}

// Writes a line to standard error: what failed, a colon and why.
fn fail(rt: &impl Eprint, what: &str, error: io::Error) {
    let text = InlineText::<128>::of(error);
    let why = without_number(text.as_str());
    let _ = eprintln!(rt; "{what}: {why}");
}

// An error's text without the number that stands behind it.
fn without_number(text: &str) -> &str {
    match text.split_once(" (os error ") {
        Some((message, _)) => message,
        None => text,
    }
}
