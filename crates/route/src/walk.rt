// The walk over the records of a file from the front, which finds the first bad record by the refusals 2, 3
// and 4. It answers for every file of any length, and changes no lent byte.
ghost use Rattle.std.specs.Prelude.{◌≡◌, IsTrue, ◌↔◌};
ghost use Rattle.meaning.specs.Route.{look_up, admitted, walk, at_start};
ghost use Rattle.route.specs.kind.Kinds.{code};
ghost use Rattle.route.specs.framing.Iterating.{read};
ghost use Rattle.route.specs.walk.Walking.{stage_of, stage_told, verdict_of, told_verdict, StepCall};

use crate::framing::Records;
use crate::kind::Kind;
use meaning::{FoundRecord, Refusal};

// How far the order of records has come.
#[derive(Clone, Copy)]
pub enum Stage {
    Start,
    AfterBox,
    AfterField,
    Factors,
    Terms,
    End,
}

impl Stage {
    // The stage after a record of the kind; none where it is out of place.
    #[tactic(auto, unfolding(meaning::specs::Route::look_up, meaning::specs::Route::admitted))]
    fn after(self, kind: Kind) -> Option<Stage>
        ensures { stage_told result ≡ look_up (code kind) (admitted (stage_of self)) }
    {
        match (self, kind) {
            (Stage::Start, Kind::Box) => Some(Stage::AfterBox),
            (Stage::AfterBox, Kind::PrimeField | Kind::BinaryField) => Some(Stage::AfterField),
            (Stage::AfterField, Kind::Mode) => Some(Stage::Factors),
            (Stage::Factors, Kind::Factor) => Some(Stage::Factors),
            (Stage::Factors | Stage::Terms, Kind::Terms | Kind::Term) => Some(Stage::Terms),
            (Stage::Factors | Stage::Terms, Kind::End) => Some(Stage::End),
            (Stage::AfterBox | Stage::AfterField | Stage::Factors | Stage::Terms, Kind::Stop) =>
                Some(self),
            _ => None,
        }
    }

    // The stage after a record as it stands in a file: 2, 3 and 4 are tried in turn.
    fn step(self, next: FoundRecord) -> Result<Stage, Refusal>
        ensures { StepCall (stage_of self) (read next.entry) result }
    {
        let kind = Kind::try_from(next.kind)?;
        if next.body.len() < kind.body_length() {
            return Err(Refusal::FileCutShort);
        }
        self.after(kind).ok_or(Refusal::RecordOutOfPlace)
    }
}

// The walk over the whole file: whether 2, 3 and 4 accept it.
pub fn walk_file(file: &[u8]) -> Result<(), Refusal>
    ensures { told_verdict result ≡ verdict_of (walk file.now 0 at_start) }
{
    let mut stage = Stage::Start;
    // the verdict on the records that are left, at the stage = that on all records
    for record in Records::of(file) {
        stage = stage.step(record)?;
    }
    match stage {
        Stage::End => Ok(()),
        _ => Err(Refusal::FileCutShort),
    }
}
