// Factors with their upper powers, a slice for each: what belongs to a factor by its place, and the total
// degree. For any slices of any length; no lent byte is changed. A factor without an upper power has 0, and
// further upper powers belong to no factor.
ghost use Rattle.std.specs.Prelude.{◌≡◌, ◌*◌, min, get_or};
ghost use Rattle.meaning.specs.Polynomial.{degree};
ghost use Rattle.meaning.specs.Conditions.{named};
ghost use Rattle.meaning.specs.Slices.{lists_of};
ghost use Rattle.poly.specs.factors.Degrees.{capped_degree};

// The upper power of factor i.
pub fn upper_at(uppers: &[u64], i: usize) -> u64
    ensures { result ≡ get_or uppers.now i 0 }
{
    uppers.get(i).copied().unwrap_or(0)
}

// The degree of a list: one less than its length, and 0 for the empty list.
fn degree(f: &[u8]) -> usize
    ensures { result ≡ degree f.now }
{
    f.len().saturating_sub(1)
}

// The product, or 4,097 if it is larger.
fn capped_product(v: u64, d: usize) -> usize
    ensures { result ≡ min (v * d) 4097 }
{
    (v as usize).saturating_mul(d).min(4097)
}

// The total degree D, or 4,097 if it is larger.
pub fn total_degree(factors: &[&[u8]], uppers: &[u64]) -> usize
    ensures { result ≡ capped_degree (named (lists_of factors.now) uppers.now) }
{
    let mut sum = 0;
    // Invariant: sum, at most 4,096, and the total degree from factor i on add up to D.
    for (i, f) in factors.iter().enumerate() {
        sum += capped_product(upper_at(uppers, i), degree(f));
        if 4096 < sum {
            return 4097;
        }
    }
    sum
}
