// The reader of a route file by record number. Every function answers for every file of any length and every
// number, and changes no lent byte.
ghost use Rattle.std.specs.Prelude.{◌≡◌, Ok, Err, MatchResult, [], get_or};
ghost use Rattle.meaning.specs.Calls.{RecordCall};
ghost use Rattle.meaning.specs.Route.{end_record};
ghost use Rattle.route.specs.framing.Framing.{records_from};
ghost use Rattle.route.specs.framing.Iterating.{read};
ghost use Rattle.route.specs.reader.Reading.{BodyStart};

use crate::acceptance::file_verdict;
use crate::framing::Records;
use crate::kind::Kind;
use meaning::{FoundRecord, Refusal};

// Record n of a file by the lengths alone, counted from 0; beyond the last the end record.
fn record_at(file: &[u8], n: usize) -> FoundRecord<'_>
    ensures { read result ≡ get_or (records_from file.now 0) n end_record }
{
    Records::of(file).nth(n).unwrap_or(FoundRecord {
        kind: u8::from(Kind::End),
        body: &file[..0],
    })
}

// The place in the file where the body of record n begins, if the file is accepted; beyond the last record
// the end of the file.
pub fn body_start(file: &[u8], n: usize) -> usize
    ensures { BodyStart file.now n result }
{
    let mut records = Records::of(file);
    match records.nth(n) {
        Some(record) => file.len() - records.size() - record.body.len(),
        None => file.len(),
    }
}

// Record n, counted from 0, its body a part of the file, or the refusal of the file; beyond the last record
// the end record.
pub fn record(file: &[u8], n: usize) -> Result<FoundRecord<'_>, Refusal>
    ensures { MatchResult result
        (λ r. RecordCall file.now n (Ok r.kind) r.body.now)
        (λ r. RecordCall file.now n (Err r) []) }
{
    file_verdict(file)?;
    Ok(record_at(file, n))
}
