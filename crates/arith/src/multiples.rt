// The multiples of a number of a field, made ready once for many products with it. In GF(2^n) a product of c
// and b is the exclusive or of those of c, y·c, …, y^7·c that the bits of b pick.
ghost use Rattle.std.specs.Prelude.{ℕ, ◌≡◌, ◌+◌, ◌^◌, ◌<◌, List, [], ◌∷◌};
ghost use Rattle.meaning.specs.Field.{Field};
ghost use Rattle.bridge.proofs.Binary.BinaryNumbers.{picked, picks, doublings};
ghost use Rattle.arith.specs.prime_field.PrimeForm.{prime_field_of};
ghost use Rattle.arith.specs.extension.Extension.{extension_of};
ghost use Rattle.arith.specs.Represented.{field_of};

use crate::extension::ExtensionField;
use crate::field::GaloisField;
use crate::prime_field::PrimeField;

// The multiples of a number c. Products and sums take any bytes.
pub(crate) trait Multiples: Copy {
    // the field, and c
    ghost field: { Self → Field };

    ghost factor: { Self → ℕ };

    // c·b
    fn times(self, b: u8) -> u8
        ensures { result ≡ (field self).mul (factor self) b };

    // a + c·b
    fn plus_times(self, a: u8, b: u8) -> u8
        ensures { result ≡ (field self).add a ((field self).mul (factor self) b) };
}

// In GF(p): the number c itself.
#[derive(Clone, Copy)]
pub(crate) struct PrimeMultiples {
    pub(crate) field: PrimeField,
    pub(crate) c: u8,
}

impl Multiples for PrimeMultiples {
    ghost field = { λ m. prime_field_of m.field };

    ghost factor = { λ m. m.c };

    fn times(self, b: u8) -> u8 {
        self.field.product(self.c, b)
    }

    fn plus_times(self, a: u8, b: u8) -> u8 {
        self.field.add_product(a, self.c, b)
    }
}

// In GF(2^n): an element times 1, y, …, y^7.
#[derive(Clone, Copy)]
pub(crate) struct ExtensionMultiples {
    pub(crate) field: ExtensionField,
    pub(crate) m0: u8,
    pub(crate) m1: u8,
    pub(crate) m2: u8,
    pub(crate) m3: u8,
    pub(crate) m4: u8,
    pub(crate) m5: u8,
    pub(crate) m6: u8,
    pub(crate) m7: u8,
    ghost is_element: { m0 < 2 ^ field.degree },
    ghost are_multiples: { m0 ∷ m1 ∷ m2 ∷ m3 ∷ m4 ∷ m5 ∷ m6 ∷ m7 ∷ [] ≡ doublings (extension_of field) m0 8 },
}

// m, or 0 if the bit is 0.
pub(crate) fn pick(bit: u8, m: u8) -> u8
    ensures { result ≡ picked bit m }
{
    if bit == 0 { 0 } else { m }
}

impl ExtensionMultiples {
    ghost use Rattle.arith.specs.multiples.Multiples.{list_of};

    // The exclusive or of the multiples that the bits of b pick.
    fn pick_all(self, b: u8) -> u8
        ensures { result ≡ picks (list_of self) b }
    {
        let b1 = b / 2;
        let b2 = b1 / 2;
        let b3 = b2 / 2;
        let b4 = b3 / 2;
        let b5 = b4 / 2;
        let b6 = b5 / 2;
        let b7 = b6 / 2;
        let high = pick(b4 % 2, self.m4)
            ^ (pick(b5 % 2, self.m5) ^ (pick(b6 % 2, self.m6) ^ pick(b7 % 2, self.m7)));
        pick(b % 2, self.m0)
            ^ (pick(b1 % 2, self.m1) ^ (pick(b2 % 2, self.m2) ^ (pick(b3 % 2, self.m3) ^ high)))
    }
}

impl Multiples for ExtensionMultiples {
    ghost field = { λ m. extension_of m.field };

    ghost factor = { λ m. m.m0 };

    fn times(self, b: u8) -> u8 {
        self.pick_all(self.field.element(b))
    }

    fn plus_times(self, a: u8, b: u8) -> u8 {
        self.field.element(a) ^ self.times(b)
    }
}

// In characteristic 2: the number 1. A sum is an exclusive or, of which the bits below the size count.
#[derive(Clone, Copy)]
pub(crate) struct BitMultiples {
    pub(crate) field: GaloisField,
    pub(crate) mask: u8,
    ghost in_characteristic_two: { (field_of field).characteristic ≡ 2 },
    ghost masks: { mask + 1 ≡ (field_of field).size },
}

impl Multiples for BitMultiples {
    ghost field = { λ m. field_of m.field };

    ghost factor = { λ m. 1 };

    fn times(self, b: u8) -> u8 {
        b & self.mask
    }

    fn plus_times(self, a: u8, b: u8) -> u8 {
        (a ^ b) & self.mask
    }
}
