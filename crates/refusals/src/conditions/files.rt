// The conditions on a factor as a file writes it, by the bytes of its record's body: its degree, two bytes of
// its upper power, and its coefficients.
ghost use Rattle.std.specs.Prelude.{◌≡◌};
ghost use Rattle.meaning.specs.File.{file_factor, file_degree_out_of_range, file_coefficient_out_of_range};
ghost use Rattle.arith.specs.Represented.{field_of};

use crate::conditions::lists::{largest, term_out_of_field};
use crate::conditions::numbers::degree_out_of_range;
use arith::GaloisField;

// 10: the degree byte, which is 0 where there is none.
pub fn file_degree_out_of_range(field: GaloisField, body: &[u8]) -> bool
    ensures { result ≡ file_degree_out_of_range (field_of field) (file_factor body.now) }
{
    body.is_empty() || degree_out_of_range(field, body[0] as usize)
}

// 11: a coefficient below the degree is no element of the field, or one from the degree on is not 0.
pub fn file_coefficient_out_of_range(field: GaloisField, body: &[u8]) -> bool
    ensures { result ≡ file_coefficient_out_of_range (field_of field) (file_factor body.now) }
{
    let n = body.len();
    if n <= 3 {
        return false;
    }
    let end = body[0] as usize + 3;
    if n <= end {
        return term_out_of_field(field, &body[3..n]);
    }
    term_out_of_field(field, &body[3..end]) || 0 < largest(&body[end..n])
}
