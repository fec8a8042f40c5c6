// For odd p the sums of a block over GF(p) are plain numbers, which stand for their remainders.
ghost use Rattle.arith.specs.declared.field.GaloisField.{GaloisField};
ghost use Rattle.arith.specs.sums.Sums.{Room, elements_of};
ghost use Rattle.arith.proofs.sums.Elements.{length-elements};
ghost use Rattle.lent.specs.sums.Residues.{residues_bounded};

use crate::sums::Summation;
use arith::PrimeField;
use arith::sums::{add_products, are_zero, store};

impl Summation for PrimeField {
    type Sum = u16;

    type Room = u16;

    ghost field = { λ f. GaloisField.Prime f };

    ghost elements = { elements_of };

    ghost has_room = { λ f r l. Room r l };

    fn add(self, sums: &mut [u16], room: u16, c: u8, first: &[u8], second: &[u8]) -> u16 {
        add_products(self, sums, room, c, first, second)
    }

    fn store(self, sums: &[u16], out: &mut [u8]) -> bool {
        store(self, sums, out)
    }

    fn are_zero(self, sums: &[u16]) -> bool {
        are_zero(self, sums)
    }

    ghost as_many = { length-elements };

    ghost are_elements = { λ f r l h. residues_bounded f l };
}
