// The poly line of a rating, put after what is printed already.
ghost use Rattle.std.specs.Prelude.{◌∷◌, map, ◌+◌, ◌*◌, ◌≤◌, length};
ghost use Rattle.meaning.specs.Print.{text, decimal, line};
ghost use Rattle.printing.specs.words.Words.{Pushed};

use crate::buffer::{MOST_PRINTED, Printed};

impl Printed {
    // The poly line with the coefficients, constant first.
    pub(crate) fn push_poly(&mut self, coefficients: &[u8])
        requires { length self.old + (5 + 4 * length coefficients.now) ≤ MOST_PRINTED }
        ensures { Pushed (5 + 4 * length coefficients.now)
            (line (text "poly" ∷ map decimal coefficients.now)) self.old self.new }
    {
        self.push_word(b"poly");
        self.push_led(b' ', coefficients);
        self.push(b'\n');
    }
}
