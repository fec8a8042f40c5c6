// The two halves of the work bytes: tested and loaded. The first 8,192 work bytes are two halves of 4,096:
// half h, 0 or 1, stands at 4096·h.
ghost use Rattle.std.specs.Prelude.{◌≡◌, ◌-◌, length};
ghost use Rattle.bridge.proofs.Sequences.KnownActions.{all_zero};
ghost use Rattle.lent.specs.halves.Halves.{Halves, Placed};

use crate::overwrite;

// Terms at the front of a half of the work bytes.
#[derive(Clone, Copy)]
pub struct Place {
    pub half: usize,
    pub count: usize,
}

// Whether all bytes of a block are 0, by one test for all of them.
pub(crate) fn block_zero(block: &[u8]) -> bool
    ensures { result ≡ all_zero block.now }
{
    // Invariant: `any` is 0 exactly if the first bytes are.
    let mut any: u8 = 0;
    for byte in block {
        any |= *byte;
    }
    any == 0
}

// Whether all bytes of a part are 0. Stops at the first block that has another byte.
pub fn all_zero(part: &[u8]) -> bool
    ensures { result ≡ all_zero part.now }
{
    // Invariant: the bytes before those that are left are 0.
    for block in part.chunks(256) {
        if !block_zero(block) {
            return false;
        }
    }
    true
}

// Leaves the terms at the front of half h of the work bytes, and the other half and all beyond as they were.
pub fn load(work: &mut [u8], h: usize, terms: &[u8])
    requires { Halves work.old h (length terms.now) }
    ensures { Placed work.old h (1 - h) terms.now work.new }
{
    let at = 4096 * h;
    overwrite(&mut work[at..at + terms.len()], terms);
}
