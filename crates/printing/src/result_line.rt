// The result line, put after what is printed already.
ghost use Rattle.std.specs.Prelude.{◌≡◌, ◌++◌, ◌+◌, ◌≤◌, length};
ghost use Rattle.meaning.specs.Result.{refused};
ghost use Rattle.meaning.specs.Print.{text, decimal, label_word, result_line};
ghost use Rattle.printing.specs.result_line.Outcomes.{degree_of, denominator_of, label_of, started};
ghost use Rattle.printing.specs.words.Words.{Pushed};

use crate::buffer::{MOST_PRINTED, Printed};
use meaning::FileOutcome;

// The degree of a rated file, and the denominator of its density.
pub(crate) fn density(outcome: FileOutcome) -> (u64, u64)
    ensures { (result.0 ≡ degree_of outcome) × (result.1 ≡ denominator_of outcome) }
{
    match outcome {
        FileOutcome::Powers {
            degree,
            denominator,
            ..
        }
        | FileOutcome::Unique {
            degree,
            denominator,
        }
        | FileOutcome::Several {
            degree,
            denominator,
        } => (degree, denominator),
    }
}

impl Printed {
    // A number and the word after it.
    fn push_figure(&mut self, n: u64, word: &[u8])
        requires { length self.old + (20 + length word.now) ≤ MOST_PRINTED }
        ensures { Pushed (20 + length word.now) (decimal n ++ word.now) self.old self.new }
    {
        self.push_number(n);
        self.push_word(word);
    }

    // The result line of a refusal: the box, `refused` and the number.
    pub(crate) fn push_refused(&mut self, sender: u64, number: u64)
        requires { length self.old + 50 ≤ MOST_PRINTED }
        ensures { Pushed 50 (result_line sender (refused number)) self.old self.new }
    {
        self.push_figure(sender, b" refused ");
        self.push_figure(number, b"\n");
    }

    // The start of the result line of a rating: the box, `ok` and the density, up to the blank before the
    // last word.
    fn push_start(&mut self, sender: u64, degree: u64, denominator: u64)
        requires { length self.old + 66 ≤ MOST_PRINTED }
        ensures { Pushed 66 (started sender degree denominator) self.old self.new }
    {
        self.push_figure(sender, b" ok ");
        self.push_figure(degree, b"/");
        self.push_figure(denominator, b" ");
    }

    // The last word: the powers, or `one` or `some`.
    fn push_label(&mut self, outcome: FileOutcome)
        requires { length self.old + 168 ≤ MOST_PRINTED }
        ensures { Pushed 168 (label_word (label_of outcome)) self.old self.new }
    {
        match outcome {
            FileOutcome::Powers { count, powers, .. } => {
                self.push_powers(&powers[..count.min(8) as usize]);
            }
            FileOutcome::Unique { .. } => self.push_word(b"one"),
            FileOutcome::Several { .. } => self.push_word(b"some"),
        }
    }

    // The result line of a rating.
    pub(crate) fn push_rated(&mut self, sender: u64, outcome: FileOutcome)
        requires { length self.old + 235 ≤ MOST_PRINTED }
        ensures { Pushed 235
            (started sender (degree_of outcome) (denominator_of outcome)
            ++ (label_word (label_of outcome) ++ text "\n"))
            self.old self.new }
    {
        let (degree, denominator) = density(outcome);
        self.push_start(sender, degree, denominator);
        self.push_label(outcome);
        self.push(b'\n');
    }
}
