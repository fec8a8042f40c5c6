// The questions that are answered by yes or no. They change no lent byte.
#![tactic(auto)]

ghost use Rattle.std.specs.Prelude.{◌≡◌};
ghost use Rattle.meaning.specs.Polynomial.{irreducible, monic_multiple};
ghost use Rattle.meaning.specs.Calls.{PrimeCall, IrreducibleCall};
ghost use Rattle.arith.specs.Represented.{field_of};
ghost use Rattle.questions.specs.Asked.{Asked};

use arith::GaloisField;
use meaning::{FieldName, Refusal};
use poly::multiples::monic_multiple;
use refusals::factors::factor_verdict;

// Whether n is a prime from 2 to 251.
pub fn prime_in_range(n: u64) -> bool
    ensures { PrimeCall n result }
{
    arith::primes::prime_in_range(n)
}

// Whether the monic multiple of f is irreducible. A monic f is its own, and no copy is made of it.
fn multiple_irreducible(field: GaloisField, f: &[u8]) -> bool
    requires { Asked (field_of field) f.now }
    ensures { result ≡ irreducible (field_of field) (monic_multiple (field_of field) f.now) }
{
    let n = f.len();
    if f[n - 1] == 1 {
        return irreducible::is_irreducible(field, f);
    }
    let mut multiple = [0u8; 33];
    monic_multiple(field, f, &mut multiple);
    irreducible::is_irreducible(field, &multiple[..n])
}

// Whether the polynomial with these coefficients, constant first, is irreducible over the field with this
// name, or the refusal by 6 or 20, 10 or 11. It stands for its monic multiple.
pub fn is_irreducible(name: FieldName, coefficients: &[u8]) -> Result<bool, Refusal>
    ensures { IrreducibleCall name coefficients.now result }
{
    let field = GaloisField::try_from(name)?;
    factor_verdict(field, coefficients)?;
    Ok(multiple_irreducible(field, coefficients))
}
