// The powers of p that the ratings need: those that reach a number, and those that divide it. Assumes
// 2 ≤ p ≤ 251 and numbers up to 4,096, so that nothing wraps.
ghost use Rattle.std.specs.Prelude.{◌≤◌, ◌<◌};
ghost use Rattle.powers.specs.levels.Levels.{Base, Reaching, Dividing};

pub use lent::levels::Level;

// The least power of p that is at least r.
pub fn level_reaching(p: usize, r: usize) -> Level
    requires { Base p × (r ≤ 4096) }
    ensures { Reaching p r result }
{
    // the power before that of the level is less than r
    let mut level = Level::first(p);
    while level.power < r {
        level = level.next();
    }
    level
}

// The largest power of p that divides n.
pub fn level_dividing(p: usize, n: usize) -> Level
    requires { Base p × (0 < n) × (n ≤ 4096) }
    ensures { Dividing p n result }
{
    // n is the power of the level times the rest
    let mut level = Level::first(p);
    let mut rest = n;
    while rest % p == 0 {
        rest /= p;
        level = level.next();
    }
    level
}
