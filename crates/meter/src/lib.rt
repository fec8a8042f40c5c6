// The meter: the figures of the free way after each term. It is a small struct of numbers beside two lent
// arrays: the terms that it holds, and the two polynomials of the Berlekamp-Massey algorithm. Its calls take
// every meter and all bytes, but promise nothing of a meter that no start and no terms made, or that comes
// with other bytes than the last call left.
#![tactic(auto)]

ghost use Rattle.std.specs.Prelude.{◌≡◌, true, ◌<◌, length, Ok};
ghost use Rattle.meaning.specs.Calls.{StartCall, TermCall, ReadingCall};
ghost use Rattle.arith.specs.Represented.{field_of};
ghost use Rattle.meter.specs.Model.{meter_model, meter_of, recurrence_of, Usable, Taken, NextCall};

use arith::GaloisField;
use massey::figures;
use massey::step::Recurrence;
use meaning::{FieldName, FreeRating, Meter, MeterStep, Refusal};
use refusals::term_verdict;

// The meter for the field with this name, with the numbers of a recurrence.
fn meter_of(name: FieldName, known: Recurrence) -> Meter
    ensures { result ≡ meter_of name known }
{
    Meter {
        field: name,
        held: known.seen,
        degree: known.degree,
        earlier: known.earlier,
        inverse: known.inverse,
        half: known.half,
    }
}

// The numbers of the recurrence that a meter keeps.
fn recurrence_of(meter: Meter) -> Recurrence
    ensures { result ≡ recurrence_of meter }
{
    Recurrence {
        seen: meter.held,
        degree: meter.degree,
        earlier: meter.earlier,
        inverse: meter.inverse,
        half: meter.half,
    }
}

// A meter for terms of the field with this name that holds none, or the refusal by 6 or 20. If it starts, it
// clears the work bytes.
pub fn start_meter(name: FieldName, work: &mut [u8; 8192]) -> Result<Meter, Refusal>
    ensures { StartCall meter_model name work.old result work.new }
{
    GaloisField::try_from(name)?;
    let known = Recurrence::start(work);
    Ok(meter_of(name, known))
}

// The degree that the meter shows, and the word.
pub fn reading(meter: Meter) -> FreeRating
    ensures { ReadingCall meter_model meter (Ok result) }
{
    figures(meter.degree, meter.held)
}

// Whether the numbers of a meter are in range for a step, as they are in every meter made by start and terms.
fn is_usable(meter: Meter) -> bool
    ensures { Usable meter result }
{
    meter.degree <= meter.held && meter.half < 2
}

// Stores the term after those held, and takes the step on it in the field of the meter.
fn take(field: GaloisField, meter: Meter, term: u8, terms: &mut [u8], work: &mut [u8]) -> Meter
    requires usable { Usable meter true }
    requires terms_len { (length terms.old ≡ 4096) × (length work.old ≡ 8192) × (meter.held < 4096) }
    ensures { Taken (field_of field) meter term terms.old work.old result
        terms.new work.new }
{
    let known = recurrence_of(meter);
    let n = meter.held;
    terms[n] = term;
    let next = known.after_all(field, &terms[..n + 1], work);
    let name = meter.field;
    meter_of(name, next)
}

// The meter after the term, or what refuses it: 6 or 20 by the name, 6 by the numbers of the meter, 8 or 18.
fn next_meter(
    meter: Meter,
    term: u8,
    terms: &mut [u8; 4096],
    work: &mut [u8; 8192],
) -> Result<Meter, Refusal>
    ensures { NextCall meter term terms.old work.old result terms.new work.new }
{
    let field = GaloisField::try_from(meter.field)?;
    if !is_usable(meter) {
        return Err(Refusal::NotPrime);
    }
    term_verdict(field, meter.held, term)?;
    Ok(take(field, meter, term, terms, work))
}

// The meter after the term and what it shows then, or the refusal by 8 or 18, which leaves the meter and all
// lent bytes as they were. A meter with the name of no field meets the refusal of the name, and one whose
// numbers are out of range 6, in the same way.
pub fn take_term(meter: Meter, term: u8, terms: &mut [u8; 4096], work: &mut [u8; 8192]) -> MeterStep
    ensures { TermCall meter_model meter term terms.old work.old result
        terms.new work.new }
{
    match next_meter(meter, term, terms, work) {
        Ok(next) => MeterStep {
            reading: Ok(reading(next)),
            meter: next,
        },
        Err(r) => MeterStep {
            reading: Err(r),
            meter,
        },
    }
}
