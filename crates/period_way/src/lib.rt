// The period way on accepted input: from terms in lent bytes to the power of the factor. The first 8,192
// work bytes are two halves of 4,096, terms are stored there alone, and the way leaves them 0 and all beyond
// them as it was. Assumes what each function says of its input.
#![tactic(auto)]

ghost use Rattle.std.specs.Prelude.{◌≤◌, length};
ghost use Rattle.arith.specs.Represented.{field_of};
ghost use Rattle.powers.specs.levels.Levels.{Dividing};
ghost use Rattle.period_way.specs.Period.{PeriodInput, PeriodSearched, PeriodFound};

use action::annihilates_at_level;
use arith::GaloisField;
use lent::clear;
use lent::halves::{Place, load};
use lent::levels::Level;
use powers::digit_search::least_power;
use powers::levels::level_dividing;

// The least power of f that annihilates the endless repetition of the terms, or none. There are p^w·m of
// them, p the characteristic and m not divisible by it, and `level` is p^w. Some power annihilates exactly if
// p^w does: it is tried on the whole period first. Then the first p^w·deg f terms are a portion whose power
// is that of the period. Uses both halves of the work bytes, and leaves all beyond them as it was.
pub fn search_level(
    field: GaloisField,
    work: &mut [u8],
    f: &[u8],
    terms: &[u8],
    level: Level,
) -> Option<u64>
    requires in_bounds { 8192 ≤ length work.old }
    requires period_input { PeriodInput (field_of field) f.now terms.now }
    requires dividing { Dividing (field_of field).characteristic (length terms.now) level }
    ensures { PeriodSearched (field_of field) f.now terms.now work.old
        work.new result }
{
    if !annihilates_at_level(field, terms, f, level) {
        return None;
    }
    let count = terms.len().min(level.power * (f.len() - 1));
    load(work, 0, &terms[..count]);
    let place = Place { half: 0, count };
    Some(least_power(field, work, place, f, level) as u64)
}

// The same, with the level that belongs to the number of terms, and the first 8,192 work bytes left 0.
pub fn period_power(field: GaloisField, work: &mut [u8], f: &[u8], terms: &[u8]) -> Option<u64>
    requires in_bounds { 8192 ≤ length work.old }
    requires period_input { PeriodInput (field_of field) f.now terms.now }
    ensures { PeriodFound (field_of field) f.now terms.now work.old
        work.new result }
{
    let level = level_dividing(field.characteristic() as usize, terms.len());
    let found = search_level(field, work, f, terms, level);
    clear(work);
    found
}
