// In characteristic 2, GF(2) among the fields, the sums of a block are elements.
ghost use Rattle.std.specs.Prelude.{ℕ, ◌≡◌, ◌++◌, ◌+◌, ◌≤◌, List, length, refl};
ghost use Rattle.arith.specs.Represented.{field_of};
ghost use Rattle.arith.specs.Slices.{combined};
ghost use Rattle.lent.specs.sums.Bounded.{Bounded};

use crate::halves::block_zero;
use crate::overwrite;
use crate::sums::Summation;
use arith::GaloisField;

// Sums that are elements of a field of characteristic 2.
#[derive(Clone, Copy)]
pub(crate) struct ElementSums {
    pub(crate) field: GaloisField,
    ghost in_characteristic_two: { (field_of field).characteristic ≡ 2 },
}

impl ElementSums {
    // Adds c·s to the sums, as far as the terms s go.
    fn add_run(self, sums: &mut [u8], c: u8, s: &[u8])
        requires { length s.now ≤ length sums.old }
        ensures { sums.new ≡ combined (field_of self.field) sums.old c s.now }
    {
        if c == 1 {
            self.field.add_bits(sums, s);
        } else {
            self.field.add_multiple(sums, c, s);
        }
    }
}

impl Summation for ElementSums {
    type Sum = u8;

    type Room = ();

    ghost field = { λ s. s.field };

    ghost elements = { λ s l. l };

    ghost has_room = { λ s r l. Bounded (field_of s.field) l };

    fn add(self, sums: &mut [u8], _room: (), c: u8, first: &[u8], second: &[u8]) {
        if c == 0 {
            return;
        }
        let n = first.len();
        self.add_run(&mut sums[0..n], c, first);
        self.add_run(&mut sums[n..], c, second);
    }

    fn store(self, sums: &[u8], out: &mut [u8]) -> bool {
        overwrite(out, sums);
        block_zero(sums)
    }

    fn are_zero(self, sums: &[u8]) -> bool {
        block_zero(sums)
    }

    ghost as_many = { λ s l. refl };

    ghost are_elements = { λ s r l h. h };
}
