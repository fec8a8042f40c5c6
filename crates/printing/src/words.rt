// Numbers put after what is printed already.
ghost use Rattle.std.specs.Prelude.{ℕ, ◌≡◌, [], ◌∷◌, ◌++◌, map, ◌+◌, ◌*◌, ◌≤◌, length};
ghost use Rattle.meaning.specs.Print.{text, decimal, joined};
ghost use Rattle.printing.specs.words.Words.{Pushed, led};

use crate::buffer::{MOST_PRINTED, Printed};

// A number with so many decimal digits at most.
pub(crate) trait Figure: Copy {
    ghost value: { Self → ℕ };

    ghost most: { ℕ };

    fn value(self) -> u64
        ensures number { result ≡ value self }
        ensures short { length (decimal result) ≤ most };
}

impl Figure for u8 {
    ghost value = { λ n. n };

    ghost most = { 3 };

    fn value(self) -> u64 {
        u64::from(self)
    }
}

impl Figure for u64 {
    ghost value = { λ n. n };

    ghost most = { 20 };

    fn value(self) -> u64 {
        self
    }
}

impl Printed {
    // The decimal digits of a number: those of its tenth, then the last one.
    fn push_digits(&mut self, n: u64)
        requires { length self.old + length (decimal n) ≤ MOST_PRINTED }
        ensures { self.new ≡ self.old ++ decimal n }
    {
        if 10 <= n {
            self.push_digits(n / 10);
        }
        self.push(b'0' + (n % 10) as u8);
    }

    // A number.
    pub(crate) fn push_number<T: Figure>(&mut self, n: T)
        requires { length self.old + T.most ≤ MOST_PRINTED }
        ensures { Pushed T.most (decimal (T.value n)) self.old self.new }
    {
        self.push_digits(n.value());
    }

    // Numbers with a separator before each.
    pub(crate) fn push_led<T: Figure>(&mut self, separator: u8, numbers: &[T])
        requires { length self.old + (1 + T.most) * length numbers.now ≤ MOST_PRINTED }
        ensures { Pushed ((1 + T.most) * length numbers.now)
            (led (separator ∷ []) (map (λ n. decimal (T.value n)) numbers.now)) self.old self.new }
    {
        // the first numbers are put
        for number in numbers {
            self.push(separator);
            self.push_number(*number);
        }
    }

    // The powers with commas between them.
    pub(crate) fn push_powers(&mut self, powers: &[u64])
        requires { length self.old + 21 * length powers.now ≤ MOST_PRINTED }
        ensures { Pushed (21 * length powers.now) (joined (text ",") (map decimal powers.now))
            self.old self.new }
    {
        if let Some((first, others)) = powers.split_first() {
            self.push_number(*first);
            self.push_led(b',', others);
        }
    }
}
