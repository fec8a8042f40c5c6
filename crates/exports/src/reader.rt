// The reader of route files for programs in other languages. A slice does not tell where in the file it
// begins, so the place of the body is found beside it.
ghost use Rattle.meaning.specs.Exports.{RecordExported};

use meaning::Found;
use route::reader::body_start;

// Record n, counted from 0; beyond the last the end record.
#[unsafe(no_mangle)]
pub extern "C" fn gobashe_record(file: &[u8], n: usize) -> Found
    ensures { RecordExported file.now n result }
{
    match rater::record(file, n) {
        Ok(record) => Found {
            status: 0,
            kind: record.kind.into(),
            from: body_start(file, n) as u64,
            length: record.body.len() as u64,
        },
        Err(r) => Found {
            status: r.into(),
            kind: 0,
            from: 0,
            length: 0,
        },
    }
}
