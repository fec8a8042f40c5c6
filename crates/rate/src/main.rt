// The rating program. It reads one route file on standard input and writes the header, the result line and,
// where the file is rated, the poly line to standard output. `main` reads and writes; what is written for
// what was read is the matter of `respond`. It always ends with status 0: what it could not read or write is
// a line on standard error, and nothing else is written there.
#![tactic(auto)]

ghost use Rattle.std.specs.Prelude.{◌≤◌, length};
ghost use Rattle.meaning.specs.Program.{Response};

use printing::lines::{ANSWER_BYTES, MOST_PRINTED, print_rating};
use rate_file::rate_file;
use route::framing::part;
use std::io::{Read, Write};

// How much of the input is kept: one byte more than a file may have. Further bytes change nothing.
const KEPT_BYTES: usize = 16385;

// The lent work bytes.
const WORK_BYTES: usize = 8192;

// Writes what the program prints to the front of `out`, and returns its number of bytes. The first `count`
// bytes of the buffer are the input, or its first bytes where the buffer is full.
fn respond(buffer: &[u8; KEPT_BYTES], count: usize, out: &mut [u8; MOST_PRINTED]) -> usize
    ensures { Response buffer.now count result out.new }
{
    let mut answer = [0u8; ANSWER_BYTES];
    let mut work = [0u8; WORK_BYTES];
    let rating = rate_file(part(buffer, 0, count), &mut answer, &mut work);
    print_rating(rating, &answer, out)
}

// Reads once, to the front of the bytes, and returns how many came: 0 where the input is over, and where the
// read fails, which is said on standard error.
fn read_some<R: Read, W: Write>(input: &mut R, errors: &mut W, to: &mut [u8]) -> usize
    ensures { result ≤ length to.new }
{
    match input.read(to) {
        Ok(count) => count,
        Err(_) => {
            let _ = errors.write_all(
                b"rate: standard input cannot be read, the lines are of what was read\n",
            );
            0
        }
    }
}

// Reads until the buffer is full, the input ends or a read fails, and returns the number of bytes read.
fn read_input<R: Read, W: Write>(input: &mut R, errors: &mut W, buffer: &mut [u8]) -> usize {
    let mut count = 0;
    while count < buffer.len() {
        let more = read_some(input, errors, &mut buffer[count..]);
        if more == 0 {
            break;
        }
        count += more;
    }
    count
}

// Writes the lines of what was read, also where a read failed. A write that takes only a part is continued;
// one that fails is said on standard error.
fn main(rt: HostRuntime) {
    let mut errors = rt.stderr();
    let mut buffer = [0u8; KEPT_BYTES];
    let count = read_input(&mut rt.stdin(), &mut errors, &mut buffer);
    let mut out = [0u8; MOST_PRINTED];
    let n = respond(&buffer, count, &mut out);
    if Write::write_all(&mut rt.stdout(), &out[..n]).is_err() {
        let _ = Write::write_all(
            &mut errors,
            b"rate: standard output cannot be written, the lines are not all there\n",
        );
    }
}
