// The powers of a characteristic: where a digit stands, and how far apart a power by the characteristic
// spreads the coefficients of a polynomial.
ghost use Rattle.std.specs.Prelude.{◌≡◌, ◌+◌, ◌*◌, ◌/◌, ◌^◌, ◌≤◌, ◌<◌};

// The power base^exponent, which is `power`, of a base from 2 to 251.
#[derive(Clone, Copy)]
pub struct Level {
    pub base: usize,
    pub exponent: usize,
    pub power: usize,
    ghost base_least: { 2 ≤ base },
    ghost base_most: { base ≤ 251 },
    ghost is_power: { power ≡ base ^ exponent },
}

impl Level {
    // The power 0, which is 1.
    pub fn first(base: usize) -> Self
        requires { (2 ≤ base) × (base ≤ 251) }
        ensures { (result.base ≡ base) × (result.exponent ≡ 0) }
    {
        Self {
            base,
            exponent: 0,
            power: 1,
        }
    }

    // One power more.
    pub fn next(self) -> Self
        requires { self.power ≤ 4096 }
        ensures { (result.base ≡ self.base) × (result.exponent ≡ self.exponent + 1)
            × (result.power ≡ self.power * self.base) }
    {
        Self {
            base: self.base,
            exponent: self.exponent + 1,
            power: self.power * self.base,
        }
    }

    // One power less.
    pub fn previous(self) -> Self
        requires { 0 < self.exponent }
        ensures { (result.base ≡ self.base) × (result.exponent + 1 ≡ self.exponent)
            × (result.power ≡ self.power / self.base) }
    {
        Self {
            base: self.base,
            exponent: self.exponent - 1,
            power: self.power / self.base,
        }
    }
}
