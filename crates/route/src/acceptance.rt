// Whether a route file is accepted: its length, the walk over its records, and its mode; the refusals 1 to 5.
// It answers for every file of any length, and changes no lent byte.
ghost use Rattle.std.specs.Prelude.{◌≡◌};
ghost use Rattle.meaning.specs.Route.{records};
ghost use Rattle.route.specs.walk.Walking.{verdict_of, told_verdict};

use crate::mode::mode_unsuited;
use crate::walk::walk_file;
use meaning::Refusal;

// The longest file that is looked at.
pub const MOST_BYTES: usize = 16384;

// Whether the file is accepted by 1 to 5.
pub fn file_verdict(file: &[u8]) -> Result<(), Refusal>
    ensures { told_verdict result ≡ verdict_of (records file.now) }
{
    if MOST_BYTES < file.len() {
        return Err(Refusal::FileTooLong);
    }
    walk_file(file)?;
    if mode_unsuited(file) {
        return Err(Refusal::ModeUnsuited);
    }
    Ok(())
}
