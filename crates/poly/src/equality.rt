// Equality of polynomials. Assumes nothing.
ghost use Rattle.std.specs.Prelude.{◌≡◌};
ghost use Rattle.meaning.specs.Polynomial.{same};

// Whether two polynomials are equal: as many coefficients, and the same ones.
pub fn same(f: &[u8], g: &[u8]) -> bool
    ensures { result ≡ same f.now g.now }
{
    f == g
}
