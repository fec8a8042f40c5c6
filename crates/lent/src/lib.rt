// What all who work in lent bytes share: a part written over, the two halves of the work bytes, a block of an
// action, powers of the characteristic, and raised coefficients.
#![tactic(auto)]

pub mod blocks;
mod elements;
pub mod halves;
pub mod levels;
pub mod raising;
mod residues;
mod sums;

ghost use Rattle.std.specs.Prelude.{◌≡◌, ◌≤◌, length};
ghost use Rattle.meaning.specs.Result.{cleared};

// Writes a list over a part of the same length. A loop, since `copy_from_slice` asks a host of the library
// for `memmove`, which it needs for nothing else.
pub fn overwrite(to: &mut [u8], from: &[u8])
    requires { length to.old ≡ length from.now }
    ensures { to.new ≡ from.now }
{
    // Invariant: the first i bytes are copied, and the others as they were.
    for i in 0..from.len() {
        to[i] = from[i];
    }
}

// Fills the first 8,192 work bytes with zeros, as every way of rating does at its end. The others stay.
pub fn clear(work: &mut [u8])
    requires { 8192 ≤ length work.old }
    ensures { work.new ≡ cleared work.old }
{
    work[0..8192].fill(0);
}
