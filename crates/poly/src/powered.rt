// Factors with a power for each.
ghost use Rattle.std.specs.Prelude.{◌≡◌, ◌≤◌, length, take, drop};
ghost use Rattle.meaning.specs.Conditions.{named};
ghost use Rattle.meaning.specs.Slices.{lists_of};
ghost use Rattle.poly.specs.factors.Degrees.{capped_degree};

use crate::factors;

// Factors, and the power of each at its place.
#[derive(Clone, Copy)]
pub struct Powered<'a> {
    pub factors: &'a [&'a [u8]],
    pub powers: &'a [u64],
}

impl<'a> Powered<'a> {
    // The total degree of the factors to their powers, or 4,097 if it is larger.
    pub fn total_degree(self) -> usize
        ensures { result ≡ capped_degree (named (lists_of self.entry.factors.now) self.entry.powers.now) }
    {
        factors::total_degree(self.factors, self.powers)
    }

    // The first factors with their powers, as many as `mid`, and the others with theirs.
    pub fn split_at(self, mid: usize) -> (Self, Self)
        requires { (mid ≤ length self.factors.now) × (mid ≤ length self.powers.now) }
        ensures first { (result.0.factors.now ≡ take mid self.entry.factors.now)
            × (result.0.powers.now ≡ take mid self.entry.powers.now) }
        ensures second { (result.1.factors.now ≡ drop mid self.entry.factors.now)
            × (result.1.powers.now ≡ drop mid self.entry.powers.now) }
    {
        let (factors, others) = self.factors.split_at(mid);
        let (powers, further) = self.powers.split_at(mid);
        let first = Self { factors, powers };
        let second = Self {
            factors: others,
            powers: further,
        };
        (first, second)
    }
}
