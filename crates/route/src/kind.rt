// The kinds of record, and how long their bodies are.
ghost use Rattle.std.specs.Prelude.{◌≡◌};
ghost use Rattle.std.proofs.Math.Option.{some};
ghost use Rattle.meaning.specs.Route.{look_up, body_lengths};
ghost use Rattle.route.specs.kind.Kinds.{code, Names};

use meaning::Refusal;

// What a record is by its first byte, 1 to 9.
#[derive(Clone, Copy)]
pub enum Kind {
    Box = 1,
    PrimeField = 2,
    Mode = 3,
    Factor = 4,
    Terms = 5,
    Term = 6,
    Stop = 7,
    End = 8,
    BinaryField = 9,
}

impl Kind {
    // The length of the body.
    #[tactic(auto, unfolding(meaning::specs::Route::look_up, meaning::specs::Route::body_lengths))]
    pub fn body_length(self) -> usize
        ensures { look_up (code self) body_lengths ≡ some result }
    {
        match self {
            Kind::Box => 4,
            Kind::PrimeField | Kind::Mode | Kind::Term => 1,
            Kind::Factor => 35,
            Kind::Terms => 64,
            Kind::Stop => 8,
            Kind::End => 0,
            Kind::BinaryField => 2,
        }
    }
}

impl From<Kind> for u8 {
    ghost from_gives = { λ kind byte. byte ≡ code kind };

    fn from(kind: Kind) -> u8 {
        kind as u8
    }
}

impl TryFrom<u8> for Kind {
    type Error = Refusal;

    ghost try_from_gives = { Names };

    fn try_from(byte: u8) -> Result<Kind, Refusal> {
        match byte {
            1 => Ok(Kind::Box),
            2 => Ok(Kind::PrimeField),
            3 => Ok(Kind::Mode),
            4 => Ok(Kind::Factor),
            5 => Ok(Kind::Terms),
            6 => Ok(Kind::Term),
            7 => Ok(Kind::Stop),
            8 => Ok(Kind::End),
            9 => Ok(Kind::BinaryField),
            _ => Err(Refusal::UnknownKind),
        }
    }
}
