// The least power of each factor of a set, with the others to their upper powers: one half of the factors
// acts once for all of the other half. Assumes accepted input.
ghost use Rattle.std.specs.Prelude.{◌≡◌, ◌≤◌, [], ◌∷◌, length};
ghost use Rattle.std.proofs.Math.Option.{some};
ghost use Rattle.meaning.specs.Conditions.{named, total_degree};
ghost use Rattle.meaning.specs.Portion.{set_powers};
ghost use Rattle.arith.specs.Represented.{field_of};
ghost use Rattle.meaning.specs.Slices.{lists_of};
ghost use Rattle.set_way.specs.actions.SetActions.{SetInput};
ghost use Rattle.set_way.specs.search.SetSearch.{PowersSearched};

use crate::actions::act_all;
use arith::GaloisField;
use lent::halves::{Place, load};
use poly::powered::Powered;
use powers::digit_search::least_power;
use powers::levels::level_reaching;

// The least power of the only factor that annihilates the terms, as many as the total degree of its upper
// power. Uses both halves of the work bytes.
fn power_alone(field: GaloisField, work: &mut [u8; 8192], set: Powered, terms: &[u8]) -> u64
    requires set_input { SetInput (field_of field) (lists_of set.factors.now) set.powers.now terms.now }
    requires terms_len { length terms.now ≡ total_degree (named (lists_of set.factors.now) set.powers.now) }
    requires factors_len { length set.factors.now ≡ 1 }
    ensures { set_powers (field_of field) (named (lists_of set.entry.factors.now) set.entry.powers.now)
        terms.now ≡ some (result ∷ []) }
{
    load(work, 0, terms);
    let level = level_reaching(field.characteristic() as usize, set.powers[0] as usize);
    let place = Place {
        half: 0,
        count: terms.len(),
    };
    least_power(field, work, place, set.factors[0], level) as u64
}

// Writes the least powers of the factors by the terms, as many as the total degree of the upper powers, to
// one place for each factor. Uses both halves of the work bytes.
fn settle(field: GaloisField, work: &mut [u8; 8192], set: Powered, terms: &[u8], powers: &mut [u64])
    requires set_input { SetInput (field_of field) (lists_of set.factors.now) set.powers.now terms.now }
    requires terms_len { length terms.now ≡ total_degree (named (lists_of set.factors.now) set.powers.now) }
    requires powers_len { length powers.old ≡ length set.factors.now }
    ensures { set_powers (field_of field) (named (lists_of set.entry.factors.now) set.entry.powers.now)
        terms.now ≡ some powers.new }
{
    let n = set.factors.len();
    if n == 0 {
        return;
    }
    if n == 1 {
        powers[0] = power_alone(field, work, set, terms);
        return;
    }
    let mid = n / 2;
    let (first, second) = set.split_at(mid);
    let mut room = [0u8; 8192];
    // what the second half of the factors leaves is for the first
    let left = act_all(field, &mut room, second, terms);
    let from = 4096 * left.half;
    settle(
        field,
        work,
        first,
        &room[from..from + left.count],
        &mut powers[..mid],
    );
    // and the other way round
    let other = act_all(field, &mut room, first, terms);
    let start = 4096 * other.half;
    settle(
        field,
        work,
        second,
        &room[start..start + other.count],
        &mut powers[mid..],
    );
}

// The least powers of the factors by the first D terms, in eight places with zeros after them. Uses both
// halves of the work bytes, and leaves all beyond them as it was.
pub fn least_powers(field: GaloisField, work: &mut [u8], set: Powered, first: &[u8]) -> [u64; 8]
    requires in_bounds { 8192 ≤ length work.old }
    requires set_input { SetInput (field_of field) (lists_of set.factors.now) set.powers.now first.now }
    requires first_len { length first.now ≡ total_degree (named (lists_of set.factors.now) set.powers.now) }
    ensures { PowersSearched (field_of field) (lists_of set.entry.factors.now) set.entry.powers.now
        first.now work.old work.new result }
{
    let halves = work.first_chunk_mut::<8192>().unwrap();
    let mut powers = [0u64; 8];
    settle(field, halves, set, first, &mut powers[..set.factors.len()]);
    powers
}
