// The least common multiple of two numbers, or 0 if it exceeds a limit. Assumes numbers up to 65,536.
ghost use Rattle.std.specs.Prelude.{◌≡◌, ◌<◌, ◌≤◌};
ghost use Rattle.bridge.proofs.Basics.Within.{common_within};

// The same for numbers other than 0: the first multiple of m that n divides.
fn first_multiple(m: usize, n: usize, limit: usize) -> usize
    requires { (0 < m) × (m ≤ 65536) × (0 < n) × (limit ≤ 65536) }
    ensures { result ≡ common_within limit m n }
{
    // k: a multiple of m; n divides none of those before it
    for k in (m..=limit).step_by(m) {
        if k % n == 0 {
            return k;
        }
    }
    0
}

// The least common multiple of m and n, or 0 if it exceeds the limit or one of them is 0.
pub fn common_within(m: usize, n: usize, limit: usize) -> usize
    requires { (m ≤ 65536) × (n ≤ 65536) × (limit ≤ 65536) }
    ensures { result ≡ common_within limit m n }
{
    if m == 0 || n == 0 {
        0
    } else {
        first_multiple(m.max(n), m.min(n), limit)
    }
}
