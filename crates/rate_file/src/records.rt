// The rating of what an accepted file holds: the refusals from 6 on, and the way that its mode names.
ghost use Rattle.std.specs.Prelude.{◌≡◌, length, get_or, take};
ghost use Rattle.meaning.specs.declared.FieldName.{FieldName};
ghost use Rattle.meaning.specs.File.{field_in, terms_of, rate_records};
ghost use Rattle.arith.specs.Represented.{field_of};
ghost use Rattle.route.specs.framing.Framing.{records_from};
ghost use Rattle.rate_file.specs.modes.Outcomes.{RatedFile};
ghost use Rattle.rate_file.specs.records.Accepted.{AcceptedRecords, Rateable, rated_in};

use crate::factors::written_factors_verdict;
use crate::modes::{rate_free_file, rate_period_file, rate_set_file};
use arith::GaloisField;
use meaning::{FieldName, FileOutcome, Refusal};
use refusals::terms_verdict;
use route::framing::Bodies;
use route::kind::Kind;
use route::mode::Mode;
use route::payload::{byte_at, byte_of};

// The name of a field of 2^n elements by the body of kind 9.
fn binary_name(body: &[u8]) -> FieldName
    ensures { result ≡ FieldName.Binary (get_or body.now 0 0) (get_or body.now 1 0) }
{
    FieldName::Binary {
        degree: u64::from(byte_at(body, 0)),
        low: u64::from(byte_at(body, 1)),
    }
}

// The name of the field that a file holds.
fn field_name(file: &[u8]) -> FieldName
    ensures { result ≡ field_in (records_from file.now 0) }
{
    match Bodies::of(file, Kind::BinaryField as u8).next() {
        Some(body) => binary_name(body),
        None => FieldName::Prime(u64::from(byte_of(file, Kind::PrimeField as u8))),
    }
}

// The rating of an accepted file in a field, once 7 and 8 accept the terms: 10 and 11 as a file meets them,
// and then the way of the mode.
fn rate_accepted(
    field: GaloisField,
    file: &[u8],
    terms: &[u8],
    answer: &mut [u8],
    work: &mut [u8],
) -> Result<FileOutcome, Refusal>
    requires { Rateable (field_of field) file.now terms.now }
    ensures { RatedFile
        (rated_in (field_of field) (records_from file.now 0) (length answer.old)
        (length work.old))
        answer.old work.old result answer.new work.new }
{
    match Mode::try_from(byte_of(file, Kind::Mode as u8))? {
        Mode::Period => {
            written_factors_verdict(field, file)?;
            rate_period_file(field, file, terms, answer, work)
        }
        Mode::Set => {
            written_factors_verdict(field, file)?;
            rate_set_file(field, file, terms, answer, work)
        }
        Mode::Free => rate_free_file(field, terms, answer, work),
    }
}

// The rating of an accepted file in a field, whose terms are given, at most the first 4,097 of them: 7 and 8,
// and then the rest.
fn rate_in(
    field: GaloisField,
    file: &[u8],
    terms: &[u8],
    answer: &mut [u8],
    work: &mut [u8],
) -> Result<FileOutcome, Refusal>
    requires { AcceptedRecords (records_from file.now 0)
        × (terms.now ≡ take 4097 (terms_of (records_from file.now 0))) }
    ensures { RatedFile
        (rated_in (field_of field) (records_from file.now 0) (length answer.old)
        (length work.old))
        answer.old work.old result answer.new work.new }
{
    terms_verdict(field, terms)?;
    rate_accepted(field, file, terms, answer, work)
}

// The rating of an accepted file, whose terms are given, at most the first 4,097 of them.
pub fn rate_records(
    file: &[u8],
    terms: &[u8],
    answer: &mut [u8],
    work: &mut [u8],
) -> Result<FileOutcome, Refusal>
    requires { AcceptedRecords (records_from file.now 0)
        × (terms.now ≡ take 4097 (terms_of (records_from file.now 0))) }
    ensures { RatedFile
        (rate_records (records_from file.now 0) (length answer.old)
        (length work.old))
        answer.old work.old result answer.new work.new }
{
    let field = GaloisField::try_from(field_name(file))?;
    rate_in(field, file, terms, answer, work)
}
