// Products of powers written into the lent answer. Assumes factors and powers so small that no number wraps.
ghost use Rattle.std.specs.Prelude.{◌≤◌, length};
ghost use Rattle.arith.specs.Represented.{field_of};
ghost use Rattle.meaning.specs.Slices.{lists_of};
ghost use Rattle.powers.specs.product.Writing.{ProductInput, ProductWritten};
ghost use Rattle.powers.specs.product.Writing.{PowerInput, PowerWritten};

use arith::GaloisField;
use poly::powered::Powered;
use poly::raising::times_power;

// Leaves the product of the factors to the powers at the front of the answer, and all beyond its degree as it
// was. Answers the degree. Nothing beyond the degree is read.
pub fn write_product(field: GaloisField, answer: &mut [u8], set: Powered) -> u64
    requires in_bounds { 4097 ≤ length answer.old }
    requires product_input { ProductInput (field_of field) (lists_of set.factors.now) set.powers.now }
    ensures { ProductWritten (field_of field) (lists_of set.entry.factors.now) set.entry.powers.now
        answer.old answer.new result }
{
    answer[0] = 1;
    let mut n = 0;
    // the product of the powers of the factors before this one has degree n
    for (f, r) in set.factors.iter().zip(set.powers) {
        n = times_power(field, f, *r as usize, answer, n);
    }
    n as u64
}

// Leaves f to the power at the front of the answer, and all beyond its degree as it was. Answers the degree.
pub fn write_power(field: GaloisField, answer: &mut [u8], f: &[u8], power: u64) -> u64
    requires in_bounds { 4097 ≤ length answer.old }
    requires power_input { PowerInput (field_of field) f.now power }
    ensures { PowerWritten (field_of field) f.now power answer.old
        answer.new result }
{
    let set = Powered {
        factors: &[f],
        powers: &[power],
    };
    write_product(field, answer, set)
}
