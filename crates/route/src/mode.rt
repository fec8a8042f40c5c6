// The modes of a file, and whether its factors suit the one that it names.
ghost use Rattle.std.specs.Prelude.{◌≡◌};
ghost use Rattle.meaning.specs.Route.{bodies, suits, mode_unsuited};
ghost use Rattle.route.specs.framing.Framing.{records_from};
ghost use Rattle.route.specs.mode.Modes.{mode_told, NamesMode};

use crate::framing::{count_of, first_body};
use crate::kind::Kind;
use crate::payload::{byte_of, upper_power};
use meaning::Refusal;

// The way that a file asks for by a number, 1 to 3: the period way, the set way, the free way.
#[derive(Clone, Copy)]
pub enum Mode {
    Period = 1,
    Set = 2,
    Free = 3,
}

impl TryFrom<u8> for Mode {
    type Error = Refusal;

    ghost try_from_gives = { NamesMode };

    #[tactic(auto, unfolding(meaning::specs::Route::mode_of, meaning::specs::Route::look_up))]
    fn try_from(byte: u8) -> Result<Mode, Refusal> {
        match byte {
            1 => Ok(Mode::Period),
            2 => Ok(Mode::Set),
            3 => Ok(Mode::Free),
            _ => Err(Refusal::ModeUnsuited),
        }
    }
}

impl Mode {
    // Whether the factors of a file suit the mode: one with upper power 0, one to eight, none.
    fn suits(self, file: &[u8]) -> bool
        ensures { result ≡ suits (mode_told self) (bodies 4 (records_from file.now 0)) }
    {
        let count = count_of(file, Kind::Factor as u8);
        match self {
            Mode::Period => count == 1 && upper_power(first_body(file, Kind::Factor as u8)) == 0,
            Mode::Set => 1 <= count && count <= 8,
            Mode::Free => count == 0,
        }
    }
}

// Whether the mode is unknown, or the factors do not suit it.
pub fn mode_unsuited(file: &[u8]) -> bool
    ensures { result ≡ mode_unsuited (records_from file.now 0) }
{
    match Mode::try_from(byte_of(file, Kind::Mode as u8)) {
        Ok(mode) => !mode.suits(file),
        Err(_) => true,
    }
}
