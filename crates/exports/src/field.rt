// The name of a field from its numbers.
ghost use Rattle.std.specs.Prelude.{◌≡◌};
ghost use Rattle.meaning.specs.Exports.{named_by};

use meaning::{FieldName, FieldNumbers};

// GF(number) where the degree is 0, and else GF(2^degree).
pub fn named_by(field: FieldNumbers) -> FieldName
    ensures { result ≡ named_by field }
{
    let FieldNumbers { degree, number } = field;
    if degree == 0 {
        FieldName::Prime(number)
    } else {
        FieldName::Binary {
            degree,
            low: number,
        }
    }
}
