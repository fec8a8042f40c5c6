// What a file holds, by its records with nothing checked: the box that sent it, the bytes of its field and
// mode, its factors and its terms. Each function answers for every file; only `gather_terms` and `lay_factor`
// write, and only into the bytes lent for it.
ghost use Rattle.std.specs.Prelude.{◌≡◌, ◌≤◌, length, get_or};
ghost use Rattle.std.proofs.lemmas.List.Edits.{sets};
ghost use Rattle.meaning.specs.Route.{number, byte_of, box_of, factor_upper};
ghost use Rattle.route.specs.framing.Framing.{records_from};
ghost use Rattle.route.specs.framing.Iterating.{read};
ghost use Rattle.route.specs.payload.Payload.{HoldsTerms, Gathered, LaidFactor};

use crate::acceptance::MOST_BYTES;
use crate::framing::{Records, first_body, part};
use crate::kind::Kind;
pub use crate::mode::mode_unsuited;
use meaning::FoundRecord;

// The number of up to four bytes, the most significant first.
fn big_endian(bytes: &[u8]) -> u64
    requires { length bytes.now ≤ 4 }
    ensures { result ≡ number bytes.now }
{
    let mut n = 0;
    // n < 256^i, and n continued by the bytes from i on = the number of all bytes
    for byte in bytes {
        n = 256 * n + u64::from(*byte);
    }
    n
}

// The box number; 0 where the file does not begin with a whole box record or is too long.
pub fn box_of(file: &[u8]) -> u64
    ensures { result ≡ box_of file.now }
{
    if file.len() < 5 || MOST_BYTES < file.len() || file[0] != u8::from(Kind::Box) {
        return 0;
    }
    big_endian(&file[1..5])
}

// Byte i of a body; 0 beyond the last. Byte 0 of a factor is its degree.
pub fn byte_at(bytes: &[u8], i: usize) -> u8
    ensures { result ≡ get_or bytes.now i 0 }
{
    bytes.get(i).copied().unwrap_or(0)
}

// The one byte of the first record of the kind; 0 where there is none.
pub fn byte_of(file: &[u8], kind: u8) -> u8
    ensures { result ≡ byte_of kind (records_from file.now 0) }
{
    byte_at(first_body(file, kind), 0)
}

// The upper power that the body of a factor names.
pub fn upper_power(body: &[u8]) -> u64
    ensures { result ≡ factor_upper body.now }
{
    big_endian(part(body, 1, 2))
}

// The terms that a record holds; none where it is of another kind.
fn terms_in<'a>(next: FoundRecord<'a>) -> &'a [u8]
    ensures { HoldsTerms (read next.entry) result.now }
{
    if next.kind == u8::from(Kind::Terms) || next.kind == u8::from(Kind::Term) {
        next.body
    } else {
        &[]
    }
}

// Writes the bytes of `from` into `to` from the place `at` on, as far as they fit.
fn lay(from: &[u8], to: &mut [u8], at: usize)
    ensures { to.new ≡ sets to.old at from.now }
{
    if at < to.len() {
        let count = from.len().min(to.len() - at);
        to[at..at + count].copy_from_slice(&from[..count]);
    }
}

// The number of the terms of a file. They are written to the front of the lent bytes, as far as they fit, and
// nothing after them.
pub fn gather_terms(file: &[u8], terms: &mut [u8]) -> usize
    ensures { Gathered file.now terms.old result terms.new }
{
    let mut count = 0;
    // count + the number of the terms that are left = the number of all terms, and so for the stores
    for record in Records::of(file) {
        let found = terms_in(record);
        lay(found, terms, count);
        count += found.len();
    }
    count
}

// The length of the polynomial that the body of a factor names. Its coefficients, with the leading 1, are
// written to the lent bytes from the place `at` on, as far as they fit, and nothing after them.
pub fn lay_factor(body: &[u8], to: &mut [u8], at: usize) -> usize
    requires { at ≤ length to.old }
    ensures { LaidFactor body.now at to.old result to.new }
{
    let degree = byte_at(body, 0);
    let low = part(body, 3, usize::from(degree));
    lay(low, to, at);
    lay(&[1], to, at + low.len());
    low.len() + 1
}
