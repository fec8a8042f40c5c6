// The set way on accepted input: from terms in lent bytes to the powers of the factors. The first 8,192 work
// bytes are two halves of 4,096; they are 0 in the end, and all beyond them is as it was. What one half of
// the factors leaves of the terms for the other is kept on the stack. Assumes what each function says of its
// input.
#![tactic(auto)]

pub mod actions;
pub mod search;

ghost use Rattle.std.specs.Prelude.{◌≡◌, ◌≤◌, length};
ghost use Rattle.meaning.specs.Search.{map_option};
ghost use Rattle.meaning.specs.Conditions.{named};
ghost use Rattle.meaning.specs.Answers.{padded};
ghost use Rattle.meaning.specs.Slices.{lists_of};
ghost use Rattle.arith.specs.Represented.{field_of};
ghost use Rattle.set_way.specs.actions.SetActions.{SetInput};
ghost use Rattle.set_way.specs.SetWay.{powers_found, told_powers, SetFound};

use crate::actions::annihilates;
use crate::search::least_powers;
use arith::GaloisField;
use poly::powered::Powered;

// The powers of the factors in the minimal polynomial of the continuation of the first D terms, D the total
// degree of the upper powers, in eight places with zeros after them; or nothing, if the product to the upper
// powers does not annihilate all terms. Uses both halves of the work bytes.
fn search_set(
    field: GaloisField,
    work: &mut [u8; 8192],
    set: Powered,
    terms: &[u8],
) -> Option<[u64; 8]>
    requires { SetInput (field_of field) (lists_of set.factors.now) set.powers.now terms.now }
    ensures { told_powers result ≡ map_option padded (powers_found (field_of field)
        (named (lists_of set.entry.factors.now) set.entry.powers.now) terms.now) }
{
    if !annihilates(field, work, set, terms) {
        return None;
    }
    Some(least_powers(field, work, set, &terms[..set.total_degree()]))
}

// The same, with the first 8,192 work bytes left 0, and the others as they were.
pub fn set_powers(
    field: GaloisField,
    work: &mut [u8],
    set: Powered,
    terms: &[u8],
) -> Option<[u64; 8]>
    requires in_bounds { 8192 ≤ length work.old }
    requires set_input { SetInput (field_of field) (lists_of set.factors.now) set.powers.now terms.now }
    ensures { SetFound (field_of field) (lists_of set.entry.factors.now) set.entry.powers.now
        terms.now work.old work.new result }
{
    let halves = work.first_chunk_mut::<8192>().unwrap();
    let found = search_set(field, halves, set, terms);
    halves.fill(0);
    found
}
