// How many terms a sequence takes to repeat: the shortest period of a list of terms, the order of x modulo a
// factor, and the repeat length by the powers of the factors of the minimal polynomial. No lent byte is
// written. Assumes monic irreducible factors of degree 1 to 32.
#![tactic(auto)]

pub mod multiples;
pub mod orders;
pub mod primes;
pub mod shortest;

ghost use Rattle.std.specs.Prelude.{◌≡◌, ◌≤◌, length};
ghost use Rattle.meaning.specs.Conditions.{named};
ghost use Rattle.meaning.specs.Slices.{lists_of};
ghost use Rattle.bridge.proofs.Sequences.CommonOrders.{largest_power, orders_within, repeat_by_orders};
ghost use Rattle.arith.specs.Represented.{field_of};
ghost use Rattle.repeat.specs.Factors.{PoweredFactors};

use crate::multiples::common_within;
use crate::orders::order_within;
use arith::GaloisField;
use poly::powered::Powered;
use powers::levels::level_reaching;

// The largest power of a factor.
fn largest_power(set: Powered) -> u64
    requires { length set.factors.now ≤ length set.powers.now }
    ensures { result ≡ largest_power (named (lists_of set.entry.factors.now) set.entry.powers.now) }
{
    set.powers[..set.factors.len()]
        .iter()
        .copied()
        .max()
        .unwrap_or(0)
}

// The least common multiple of the orders of the factors with a power other than 0, or 0 if it exceeds the
// limit or x is one of them.
fn orders_within(field: GaloisField, set: Powered, limit: usize) -> usize
    requires powered_factors { PoweredFactors (field_of field) (lists_of set.factors.now) set.powers.now }
    requires limit_bound { limit ≤ 65536 }
    ensures { result ≡ orders_within (field_of field)
        (named (lists_of set.entry.factors.now) set.entry.powers.now) limit }
{
    if limit == 0 {
        return 0;
    }
    let Powered { factors, powers } = set;
    let mut common = 1;
    // common: the least common multiple for the factors before i
    for (i, f) in factors.iter().enumerate() {
        if powers[i] != 0 {
            common = common_within(common, order_within(field, f, limit), limit);
            if common == 0 {
                return 0;
            }
        }
    }
    common
}

// The least period of a sequence whose minimal polynomial is the product of the factors to the powers, which
// are at most 4,096: q times the least common multiple of the orders of the factors with a power, q the least
// power of the characteristic that is at least the largest power. It is 0 beyond 65,536, and if x is one of
// these factors.
pub fn repeat_length(field: GaloisField, set: Powered) -> u64
    requires { PoweredFactors (field_of field) (lists_of set.factors.now) set.powers.now }
    ensures { result ≡ repeat_by_orders (field_of field)
        (named (lists_of set.entry.factors.now) set.entry.powers.now) }
{
    let largest = largest_power(set);
    let q = level_reaching(field.characteristic() as usize, largest as usize).power;
    (q * orders_within(field, set, 65536 / q)) as u64
}
