// A block of the action of a polynomial on a period, at most 256 places of it. In characteristic 2 the sums
// are elements of the field (`elements`), and else plain numbers (`residues`); this is asked once a block.
ghost use Rattle.std.specs.Prelude.{◌≡◌, ◌+◌, ◌%◌, ◌<◌, length};
ghost use Rattle.bridge.proofs.Sequences.KnownActions.{all_zero};
ghost use Rattle.arith.specs.Represented.{field_of};
ghost use Rattle.lent.specs.blocks.Blocks.{block_on_period, Places, Block, BlockActed};

use crate::elements::ElementSums;
use crate::sums::{act_by_sums, sums_are_zero};
use arith::GaloisField;
use arith::sums::ALL_ROOM;

// The place `step` places after `at` in a period of n terms.
pub(crate) fn advance(at: usize, step: usize, n: usize) -> usize
    requires { (at < n) × (step < n) }
    ensures { result ≡ (at + step) % n }
{
    let left = n - at;
    if step < left { at + step } else { step - left }
}

// Acts with f and the stride q on the n numbers of w from `from` on as a period: writes the m values from
// the place i on to w from `to` on, and returns whether they are all 0. All other bytes stay.
#[inline(always)]
pub fn act_block(
    field: GaloisField,
    w: &mut [u8],
    from: usize,
    n: usize,
    i: usize,
    f: &[u8],
    q: usize,
    to: usize,
    m: usize,
) -> bool
    requires { Block w.old from n i to m }
    ensures { BlockActed (field_of field) w.old from n i f.now q to m
        w.new result }
{
    match field {
        GaloisField::Prime(odd) if field.characteristic() != 2 => {
            let mut sums = [0u16; 256];
            act_by_sums(odd, &mut sums[0..m], ALL_ROOM, w, from, n, i, f, q, to)
        }
        _ => {
            let mut sums = [0u8; 256];
            act_by_sums(
                ElementSums { field },
                &mut sums[0..m],
                (),
                w,
                from,
                n,
                i,
                f,
                q,
                to,
            )
        }
    }
}

// Whether the m values from the place i on of the action of f with the stride q on the period ts are all 0.
#[inline(always)]
pub fn block_is_zero(field: GaloisField, ts: &[u8], i: usize, f: &[u8], q: usize, m: usize) -> bool
    requires { Places (length ts.now) i m }
    ensures { result ≡ all_zero (block_on_period (field_of field) f.now q ts.now i m) }
{
    match field {
        GaloisField::Prime(odd) if field.characteristic() != 2 => {
            let mut sums = [0u16; 256];
            sums_are_zero(odd, &mut sums[0..m], ALL_ROOM, ts, i, f, q)
        }
        _ => {
            let mut sums = [0u8; 256];
            sums_are_zero(ElementSums { field }, &mut sums[0..m], (), ts, i, f, q)
        }
    }
}
