// A power of a polynomial acting on terms in one of the two halves of the first 8,192 work bytes. Assumes a
// polynomial and a power so small that no number wraps.
ghost use Rattle.lent.specs.halves.Halves.{Halves};
ghost use Rattle.action.specs.power_action.Acting.{Actable, PowerActed};

use crate::act_at_level;
use arith::GaloisField;
pub use lent::halves::Place;
use lent::levels::Level;

// Acts with f^u on the n terms at a place, and returns where the n − u·deg f values are. For each digit of u
// in base p, the characteristic, f^q, q the power of p that the digit stands at, acts as often as the digit
// says. Uses both halves, and leaves all beyond them as it was.
pub fn act_power(field: GaloisField, work: &mut [u8], place: Place, f: &[u8], u: usize) -> Place
    requires halves { Halves work.old place.half place.count }
    requires actable { Actable field work.old place.half place.count f.now u }
    ensures { PowerActed field work.old place.half place.count f.now u work.new result }
{
    let mut at = place;
    let mut rest = u;
    let mut level = Level::first(field.characteristic() as usize);
    // Invariant: f^(rest·q) on the terms at `at` is f^u on the n terms, q being the power of the level.
    while 0 < rest {
        if rest % level.base == 0 {
            rest /= level.base;
            level = level.next();
        } else {
            act_at_level(field, work, at, f, level);
            at = Place {
                half: 1 - at.half,
                count: at.count - level.power * (f.len() - 1),
            };
            rest -= 1;
        }
    }
    at
}
