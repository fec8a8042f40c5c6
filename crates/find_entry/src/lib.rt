// The search of the catalogue for a binary period: the first entry with a power that annihilates it, and the
// least such power. The work bytes are used for the power of the entry that is found, and then cleared.
#![tactic(auto)]

ghost use Rattle.std.specs.Prelude.{◌≡◌, ◌+◌, ◌≤◌, ◌<◌, length, get_or};
ghost use Rattle.meaning.specs.declared.FieldName.{FieldName};
ghost use Rattle.meaning.specs.Calls.{EntryCall};
ghost use Rattle.meaning.specs.Catalogue.{catalogue, entry_power, first_entry};
ghost use Rattle.meaning.specs.Period.{period_power};
ghost use Rattle.arith.specs.Represented.{FieldNamed, field_of};
ghost use Rattle.lent.specs.blocks.Blocks.{Places};
ghost use Rattle.powers.specs.levels.Levels.{Dividing};
ghost use Rattle.period_way.specs.Period.{told, PeriodInput};
ghost use Rattle.find_entry.specs.Search.{Unpacked, BinaryPeriod, entry_found};

use arith::GaloisField;
use catalogue::catalogue_entry;
use lent::blocks::block_is_zero;
use lent::levels::Level;
use meaning::{EntryRating, Refusal};
use period_way::search_level;
use powers::levels::level_dividing;
use refusals::free_verdict;

// Leaves the coefficients of the polynomial of n, at most 11, at the front, and answers how many there are.
fn unpack(n: u64, coefficients: &mut [u8; 11]) -> usize
    ensures { Unpacked n coefficients.new result }
{
    let mut rest = n;
    // the coefficients so far, and those of the polynomial of the rest after them, are those of n
    for (i, c) in coefficients.iter_mut().enumerate() {
        if rest == 0 {
            return i;
        }
        *c = (rest % 2) as u8;
        rest /= 2;
    }
    coefficients.len()
}

// The place from which m places of a period reach to its last term other than 0, or 0 where there are fewer
// before it. What f leaves of a period with few such terms is seen there.
fn last_places(ts: &[u8], m: usize) -> usize
    requires { m ≤ length ts.now }
    ensures { result + m ≤ length ts.now }
{
    match ts.iter().rposition(|t| *t != 0) {
        Some(last) => (last + 1).saturating_sub(m),
        None => 0,
    }
}

// The least power of f that annihilates the endless repetition of the terms, by a first look at the m places
// from `at` on: where f^(2^w), which over GF(2) is f spread 2^w places apart, leaves a term other than 0
// there, no power annihilates it.
fn search_after_look(
    field: GaloisField,
    work: &mut [u8; 8192],
    f: &[u8],
    terms: &[u8],
    level: Level,
    at: usize,
    m: usize,
) -> Option<u64>
    requires field_named { FieldNamed (FieldName.Prime 2) field }
    requires period_input { PeriodInput (field_of field) f.now terms.now }
    requires dividing { Dividing (field_of field).characteristic (length terms.now) level }
    requires places { Places (length terms.now) at m }
    ensures { told result ≡ period_power (field_of field) f.now terms.now }
{
    if !block_is_zero(field, terms, at, f, level.power, m) {
        return None;
    }
    search_level(field, work, f, terms, level)
}

// The least power of entry i that annihilates the endless repetition of the terms, or nothing.
fn search_entry(
    field: GaloisField,
    work: &mut [u8; 8192],
    i: usize,
    terms: &[u8],
    level: Level,
    at: usize,
    m: usize,
) -> Option<u64>
    requires field_named { FieldNamed (FieldName.Prime 2) field }
    requires i_bound { i < 226 }
    requires binary_period { BinaryPeriod terms.now }
    requires dividing { Dividing 2 (length terms.now) level }
    requires places { Places (length terms.now) at m }
    ensures { told result ≡ entry_power terms.now (get_or catalogue i 0) }
{
    let mut coefficients = [0u8; 11];
    let count = unpack(catalogue_entry(i), &mut coefficients);
    search_after_look(field, work, &coefficients[..count], terms, level, at, m)
}

// The first entry with a power that annihilates the endless repetition of the terms, with the least such
// power, or nothing.
fn first_entry(field: GaloisField, work: &mut [u8; 8192], terms: &[u8]) -> Option<EntryRating>
    requires field_named { FieldNamed (FieldName.Prime 2) field }
    requires binary_period { BinaryPeriod terms.now }
    ensures { entry_found result ≡ first_entry terms.now }
{
    let level = level_dividing(2, terms.len());
    let m = terms.len().min(64);
    let at = last_places(terms, m);
    // no entry before entry i has a power
    for i in 0..226 {
        if let Some(power) = search_entry(field, work, i, terms, level, at, m) {
            return Some(EntryRating {
                entry: catalogue_entry(i),
                power,
            });
        }
    }
    None
}

// The first entry of the catalogue with a power that annihilates the endless repetition of the terms, and the
// least such power; or the refusal by 7, 8, 16 or 19. An answer and 19 leave zeros in the first 8,192 work
// bytes. Every other lent byte stays as it was.
pub fn find_entry(terms: &[u8], work: &mut [u8]) -> Result<EntryRating, Refusal>
    ensures { EntryCall terms.now work.old result work.new }
{
    let field = GaloisField::two();
    // the checks of the free way for answer bytes that are enough
    free_verdict(field, terms, 4097, work.len())?;
    let halves = work.first_chunk_mut::<8192>().unwrap();
    let found = first_entry(field, halves, terms);
    halves.fill(0);
    found.ok_or(Refusal::NoEntry)
}
