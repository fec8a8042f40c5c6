// The conditions of the numbered list on numbers: counts, places, degrees and lengths.
ghost use Rattle.std.specs.Prelude.{◌≡◌, ◌^◌, ltb};
ghost use Rattle.meaning.specs.Conditions.{count_out_of_range, place_out_of_range, factor_count_out_of_range};
ghost use Rattle.meaning.specs.Conditions.{degree_out_of_range, lent_too_short};
ghost use Rattle.meaning.specs.Meter.{meter_full};
ghost use Rattle.arith.specs.Represented.{field_of};

use arith::GaloisField;

// 7: the terms, or the places to fill, number 0 or more than 4,096.
pub fn count_out_of_range(n: usize) -> bool
    ensures { result ≡ count_out_of_range n }
{
    n == 0 || 4096 < n
}

// 7, for a continuation: the place is past a buffer of `size` bytes, or the places from there on number 0 or
// more than 4,096.
pub fn place_out_of_range(size: usize, place: usize) -> bool
    ensures { result ≡ place_out_of_range size place }
{
    size < place || count_out_of_range(size - place)
}

// 18: a meter holds 4,096 terms.
pub fn meter_full(n: usize) -> bool
    ensures { result ≡ meter_full n }
{
    4096 <= n
}

// 9: no factor, or more than eight.
pub fn factor_count_out_of_range(n: usize) -> bool
    ensures { result ≡ factor_count_out_of_range n }
{
    n == 0 || 8 < n
}

// Whether the power q^e exceeds 65,536. Stops before the product can overflow.
fn power_exceeds(q: u64, e: usize) -> bool
    ensures { result ≡ ltb 65536 (q ^ e) }
{
    if 65536 < q {
        return 0 < e;
    }
    // power = q^i, at most 65,536
    let mut power = 1u64;
    for i in 0..e {
        power *= q;
        if 65536 < power {
            return true;
        }
    }
    false
}

// 10: the degree d of a factor is 0 or above 32, or q^(d div 2) exceeds 65,536, q the size of the field.
pub fn degree_out_of_range(field: GaloisField, d: usize) -> bool
    ensures { result ≡ degree_out_of_range (field_of field) d }
{
    if d == 0 || 32 < d {
        return true;
    }
    power_exceeds(field.size() as u64, d / 2)
}

// 16: the lent answer has fewer than 4,097 bytes, or the lent work fewer than 8,192.
pub fn lent_too_short(answer: usize, work: usize) -> bool
    ensures { result ≡ lent_too_short answer work }
{
    answer < 4097 || work < 8192
}
