// The meter for programs in other languages: the whole profile of a sequence by one call. The meter and the
// bytes that it works in live inside.
ghost use Rattle.std.specs.Prelude.{◌≡◌, length};
ghost use Rattle.meaning.specs.Exports.{named_by, ProfileExported};
ghost use Rattle.exports.specs.profile.Entries.{EntryWritten, TermEntered, ProfileWritten};

use crate::field::named_by;
use crate::status::status;
use meaning::{FieldNumbers, FreeRating, Meter, MeterStep};

// The four bytes of an entry with the status of a term and what the meter shows after it: the status, the
// degree in two bytes, the less significant first, and the number of the word.
fn entry_of(status: u8, shown: FreeRating) -> [u8; 4]
    ensures { EntryWritten status shown result }
{
    let (degree, word) = match shown {
        FreeRating::Unique { degree } => (degree, 1),
        FreeRating::Several { degree } => (degree, 0),
    };
    let low = (degree % 256) as u8;
    let high = (degree / 256 % 256) as u8;
    [status, low, high, word]
}

// Hands a term to the meter. The meter afterwards, and the entry of the term.
fn enter_term(
    meter: Meter,
    term: u8,
    held: &mut [u8; 4096],
    work: &mut [u8; 8192],
) -> (Meter, [u8; 4])
    ensures { TermEntered meter term held.old work.old result.0 held.new
        work.new result.1 }
{
    let MeterStep { reading, meter } = rater::take_term(meter, term, held, work);
    let entry = entry_of(status(reading) as u8, rater::reading(meter));
    (meter, entry)
}

// Hands each term in turn to a meter that holds none, and writes its entry, as far as there is room.
fn write_profile(
    meter: Meter,
    terms: &[u8],
    held: &mut [u8; 4096],
    work: &mut [u8; 8192],
    profile: &mut [u8],
)
    ensures { ProfileWritten meter terms.now held.old work.old
        profile.old profile.new }
{
    let mut known = meter;
    // the first i terms were handed in, the first 4·i bytes are their entries, and the others as they were
    // (by places: of `chunks_exact_mut` a proof knows no bytes afterwards)
    for i in 0..terms.len().min(profile.len() / 4) {
        let (next, entry) = enter_term(known, terms[i], held, work);
        known = next;
        profile[4 * i..4 * i + 4].copy_from_slice(&entry);
    }
}

// The profile of a sequence: a meter is started for the field and takes the terms one after another, as many
// as there is room for at four bytes each. The four bytes of a term are its status, 0 or the number of its
// refusal, the degree that the meter shows after it in two bytes, the less significant first, and 1 for the
// word `one` or 0 for `some`. A refused term changes nothing: its entry repeats the degree and the word from
// before it. Where the start is refused, and beyond the last entry, the lent bytes stay as they were.
#[unsafe(no_mangle)]
pub extern "C" fn gobashe_profile(field: FieldNumbers, terms: &[u8], profile: &mut [u8]) -> u64
    ensures { ProfileExported (named_by field) terms.now profile.old result
        profile.new }
{
    let mut work = [0u8; 8192];
    match rater::start_meter(named_by(field), &mut work) {
        Ok(meter) => {
            let mut held = [0u8; 4096];
            write_profile(meter, terms, &mut held, &mut work, profile);
            0
        }
        Err(r) => r.into(),
    }
}
