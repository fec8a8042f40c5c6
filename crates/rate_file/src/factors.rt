// The factors of a file: 10 and 11 as a file meets them, and the factors as lists of coefficients in lent
// bytes.
ghost use Rattle.std.specs.Prelude.{◌≡◌, ◌≤◌, length, take};
ghost use mathlib.Core.List.{map, flatten};
ghost use Rattle.meaning.specs.Result.{first_of};
ghost use Rattle.meaning.specs.FlatBytes.{split};
ghost use Rattle.arith.specs.Represented.{field_of};
ghost use Rattle.refusals.specs.Verdicts.{number_in};
ghost use Rattle.rate_file.specs.factors.Written.{factors_in, polynomials_in, written_table};

use arith::GaloisField;
use meaning::Refusal;
use refusals::conditions::files::{file_coefficient_out_of_range, file_degree_out_of_range};
use route::framing::Bodies;
use route::kind::Kind;
use route::payload::{lay_factor, upper_power};

// 10 and 11 as a file meets them.
pub fn written_factors_verdict(field: GaloisField, file: &[u8]) -> Result<(), Refusal>
    ensures { number_in result ≡ first_of (written_table (field_of field) (factors_in file.now)) }
{
    let mut factors = Bodies::of(file, Kind::Factor as u8);
    if factors.any(|body| file_degree_out_of_range(field, body)) {
        return Err(Refusal::DegreeOutOfRange);
    }
    let mut factors = Bodies::of(file, Kind::Factor as u8);
    if factors.any(|body| file_coefficient_out_of_range(field, body)) {
        return Err(Refusal::CoefficientOutOfRange);
    }
    Ok(())
}

// The upper powers of the factors in their order, and further numbers after them.
pub fn gather_uppers(file: &[u8]) -> [u64; 8]
    requires { length (factors_in file.now) ≤ 8 }
    ensures { take (length (factors_in file.now)) result ≡ map (λ f. f.upper) (factors_in file.now) }
{
    let mut uppers = [0u64; 8];
    // the first upper powers are in place
    for (i, body) in Bodies::of(file, Kind::Factor as u8).enumerate() {
        uppers[i] = upper_power(body);
    }
    uppers
}

// Writes the polynomials of the factors in their order to the front of `to`, one after another, with the
// leading 1 of each. Returns their lengths, and further numbers after them.
pub fn pack_factors(file: &[u8], to: &mut [u8]) -> [u64; 9]
    requires { (length (factors_in file.now) ≤ 8)
        × (length (flatten (polynomials_in file.now)) ≤ length to.old) }
    ensures { split to.new (take (length (factors_in file.now)) result) ≡ polynomials_in file.now }
{
    let mut lengths = [0u64; 9];
    let mut at = 0;
    // the polynomials of the first factors, `at` bytes in all, and their lengths are in place
    for (i, body) in Bodies::of(file, Kind::Factor as u8).enumerate() {
        let n = lay_factor(body, to, at);
        lengths[i] = n as u64;
        at += n;
    }
    lengths
}
