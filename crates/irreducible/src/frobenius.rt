// The power q of a residue, q being the size of the field: it is the sum of h0·x^0, h1·x^q, h2·x^(2·q), …
// modulo f. Assumes elements of the field everywhere.
ghost use Rattle.std.specs.Prelude.{◌≡◌, ◌≤◌, length, replicate, T};
ghost use Rattle.meaning.specs.Field.{are_elements};
ghost use Rattle.meaning.specs.Polynomial.{degree, times};
ghost use Rattle.arith.specs.Represented.{field_of};
ghost use Rattle.poly.specs.residues.Residues.{Residue};
ghost use Rattle.irreducible.specs.frobenius.Table.{Powers, Table, Summed};

use arith::GaloisField;
use poly::common_divisor::trimmed_length;
use poly::residues::ResidueRing;

// What raises residues to the power q: the table has x^(j·q) modulo f from place 32·j on, for j below the
// degree of f.
#[derive(Clone, Copy)]
pub struct Frobenius<'a> {
    pub ring: ResidueRing<'a>,
    table: [u8; 1024],
    ghost powers: { Powers (field_of ring.field) ring.f.now table },
}

// Overwrites row with row·y modulo f.
fn next_row(ring: &ResidueRing, y: &[u8], row: &mut [u8])
    requires t { T (are_elements (field_of ring.now.field) y.now)
        × T (are_elements (field_of ring.now.field) row.old) }
    requires y_len_bound { (length y.now ≤ 32) × (length row.old ≡ degree ring.now.f.now) }
    ensures { Residue ring.now.field ring.now.f.now
        (times (field_of ring.now.field) y.now row.old) row.new }
{
    let d = row.len();
    let mut old = [0u8; 32];
    old[0..d].copy_from_slice(row);
    ring.multiply(&old[0..d], y, row);
}

// Writes the rows to the table, where y is x^q modulo f.
fn fill_rows(ring: &ResidueRing, y: &[u8], table: &mut [u8])
    requires t { T (are_elements (field_of ring.now.field) y.now) × (length y.now ≤ 32) }
    requires table_len { length table.old ≡ 1024 }
    ensures { Table ring.now.field ring.now.f.now y.now table.new }
{
    let d = ring.degree();
    let mut row = [0u8; 32];
    row[0] = 1;
    // Invariant: row = x^(j·q) modulo f, and the table has those before it.
    for j in 0..d {
        table[32 * j..32 * j + d].copy_from_slice(&row[0..d]);
        next_row(ring, y, &mut row[0..d]);
    }
}

// Writes to sum, where zeros stood, the sum of the rows times the coefficients of h.
fn add_rows(field: GaloisField, table: &[u8], h: &[u8], sum: &mut [u8])
    requires table_len { (length table.now ≡ 1024) × (length h.now ≤ 32) × (length sum.old ≡ length h.now) }
    requires sum_value { sum.old ≡ replicate (length sum.old) 0 }
    ensures { Summed field table.now h.now sum.new }
{
    let d = h.len();
    // Invariant: sum is that of the rows before row j.
    for (j, c) in h.iter().enumerate() {
        field.add_multiple(sum, *c, &table[32 * j..32 * j + d]);
    }
}

// Overwrites h with the sum of the rows times its coefficients: with h^q modulo f, where they are those of f.
pub fn raise(field: GaloisField, table: &[u8], h: &mut [u8])
    requires table_len { (length table.now ≡ 1024) × (length h.old ≤ 32) }
    ensures { Summed field table.now h.old h.new }
{
    let d = h.len();
    let mut sum = [0u8; 32];
    add_rows(field, table, h, &mut sum[0..d]);
    h.copy_from_slice(&sum[0..d]);
}

impl<'a> Frobenius<'a> {
    // The table for the residues of a ring.
    pub fn of(ring: ResidueRing<'a>) -> Self
        ensures { result.ring ≡ ring.entry }
    {
        let d = ring.degree();
        let mut y = [0u8; 32];
        ring.power_of_x(ring.field.size() as usize, &mut y[0..d]);
        let n = trimmed_length(&y[0..d]);
        let mut table = [0u8; 1024];
        fill_rows(&ring, &y[0..n], &mut table);
        Frobenius { ring, table }
    }

    // Overwrites h with h^q modulo f.
    pub fn raise(&self, h: &mut [u8])
        requires { length h.old ≤ 32 }
        ensures { Summed self.now.ring.field self.now.table h.old h.new }
    {
        raise(self.ring.field, &self.table, h);
    }
}
