// The search for the least annihilating power, digit by digit. The first 8,192 work bytes are two halves of
// 4,096: terms stand in one of them, the values of an action on them go into the other, and no term is kept
// anywhere else. Assumes polynomials and powers so small that no number wraps.
ghost use Rattle.lent.specs.halves.Halves.{Halves};
ghost use Rattle.powers.specs.digit_search.Searching.{Searchable, Searched};

use action::act_at_level;
use arith::GaloisField;
use lent::halves::{Place, all_zero};
use lent::levels::Level;

// The least power of f that annihilates the terms at a place, where the power of the level does. One less
// than it is found digit by digit in base p, the characteristic, the top digit first: each is the largest i
// for which f^(i·q) leaves a nonzero term of what the digits before it left. Uses both halves, and leaves all
// beyond them as it was.
pub fn least_power(
    field: GaloisField,
    work: &mut [u8],
    place: Place,
    f: &[u8],
    level: Level,
) -> usize
    requires halves { Halves work.old place.half place.count }
    requires searchable { Searchable field f.now level }
    ensures { Searched field work.old place.half place.count f.now level work.new result }
{
    let mut at = place;
    let mut level = level;
    let mut power = 0;
    // Invariant: the answer is `power` and the digits below the level, found in the terms at `at`.
    'levels: loop {
        let from = 4096 * at.half;
        if all_zero(&work[from..from + at.count]) {
            break 'levels;
        }
        if power == 0 {
            power = 1;
        }
        if level.exponent == 0 {
            break 'levels;
        }
        level = level.previous();
        let used = level.power * (f.len() - 1);
        // `digit` and the digit of what f^(digit·q) left at `at` are the digit of what was there
        let mut digit = 0;
        while digit < level.base - 1 && !act_at_level(field, work, at, f, level) {
            at = Place {
                half: 1 - at.half,
                count: at.count - used,
            };
            digit += 1;
        }
        power += digit * level.power;
        at = Place {
            half: at.half,
            count: at.count.min(used),
        };
    }
    power
}
