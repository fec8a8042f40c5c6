// The upper powers of the factors of a set act on terms in the first 8,192 work bytes, two halves of 4,096.
// Assumes accepted input.
ghost use Rattle.std.specs.Prelude.{◌≤◌, length};
ghost use Rattle.arith.specs.Represented.{field_of};
ghost use Rattle.meaning.specs.Slices.{lists_of};
ghost use Rattle.set_way.specs.actions.SetActions.{SetInput, AllActed, SetDecided};

use action::power_action::act_power;
use arith::GaloisField;
use lent::halves::{Place, all_zero, load};
use poly::powered::Powered;

// Acts on the terms with the upper powers of all factors, and answers where the values are. Uses both halves
// of the work bytes, and leaves all beyond them as it was.
pub fn act_all(field: GaloisField, work: &mut [u8], set: Powered, terms: &[u8]) -> Place
    requires in_bounds { 8192 ≤ length work.old }
    requires set_input { SetInput (field_of field) (lists_of set.factors.now) set.powers.now terms.now }
    ensures { AllActed (field_of field) (lists_of set.entry.factors.now) set.entry.powers.now
        terms.now work.old work.new result }
{
    load(work, 0, terms);
    let mut at = Place {
        half: 0,
        count: terms.len(),
    };
    // what the factors before this one leave stands at `at`
    for (f, upper) in set.factors.iter().zip(set.powers) {
        at = act_power(field, work, at, f, *upper as usize);
    }
    at
}

// Whether the product of the factors to their upper powers annihilates the terms: it acts on all of them if
// there are more than its degree. Uses both halves of the work bytes, and leaves all beyond them as it was.
pub fn annihilates(field: GaloisField, work: &mut [u8], set: Powered, terms: &[u8]) -> bool
    requires in_bounds { 8192 ≤ length work.old }
    requires set_input { SetInput (field_of field) (lists_of set.factors.now) set.powers.now terms.now }
    ensures { SetDecided (field_of field) (lists_of set.entry.factors.now) set.entry.powers.now
        terms.now work.old work.new result }
{
    let degree = set.total_degree();
    if terms.len() <= degree {
        return true;
    }
    let left = act_all(field, work, set, terms);
    let from = 4096 * left.half;
    all_zero(&work[from..from + left.count])
}
