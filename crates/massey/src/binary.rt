// The free way over GF(2), on words of bits. It takes the steps that it takes over any field; a correction is
// 1, and a sum an exclusive or. The 66 words of f, of degree L, from the highest bit down:
//
//     bit 4159: leading 1 | coefficients | bit 4158−L: zeros | … | bit 4095−n: discrepancy at term n | …
//
// There is a discrepancy for each term not yet seen, and a zero for each term seen. The words of g, an
// earlier f, are those of f when it became g, moved down by whole words; the highest of their discrepancies
// is the 1 at the term that it did not fit. So a correction adds g to f, moved down until the bits of the two
// terms meet, and the next term that f does not fit is the next bit that is 1. Assumes at most 4,096 terms.
ghost use Rattle.std.specs.Prelude.{◌≡◌, List, ℕ, ◌+◌, ◌*◌, ◌≤◌, ◌<◌, length, get_or};
ghost use Rattle.meaning.specs.Field.{prime};
ghost use Rattle.massey.specs.step.Steps.{RoomFor};
ghost use Rattle.massey.specs.Shortest.{ShortestRecurrence};
ghost use Rattle.massey.specs.words.Words.{Room};
ghost use Rattle.massey.specs.binary.Binary.{reached_with, changed_with, Aligned, WordsReady, WordsHold};
ghost use Rattle.massey.specs.binary.Binary.{Misfits, WordsStepped, WordsAdvanced, Cancelled};
ghost use Rattle.massey.specs.binary.Binary.{Reducible, WordsReduced};

use crate::words::{add_moved, bit_at, exchange, move_word, next_one, pack, unpack};
use lent::clear;

// What is known after the terms seen, beside the words of f and g: how many they are, the degree L of f, how
// many coefficients g has, and to what g is aligned: for a correction at t(n) it is moved down by
// n + 1 − aligned bits.
#[derive(Clone, Copy)]
pub struct Progress {
    pub seen: usize,
    pub degree: usize,
    pub earlier: usize,
    pub aligned: usize,
}

impl Progress {
    // What is known after n terms, if f fits all of them that are not yet seen.
    fn reached(self, n: usize) -> Self
        ensures { result ≡ reached_with self n }
    {
        Progress { seen: n, ..self }
    }

    // What is known after a term for which the degree changes and f becomes g.
    fn changed(self) -> Self
        requires { (self.degree ≤ self.seen) × (self.seen < 4096) }
        ensures { result ≡ changed_with self }
    {
        Progress {
            seen: self.seen + 1,
            degree: self.seen + 1 - self.degree,
            earlier: self.degree + 1,
            aligned: self.seen + 1,
        }
    }
}

// The words of f and of g, what is known beside them, and the lowest word that holds the bit of a term.
#[derive(Clone, Copy)]
pub struct Words {
    known: Progress,
    f: [u64; 66],
    g: [u64; 66],
    lowest: usize,
    ghost room_of_f: { Room f },
    ghost room_of_g: { Room g },
    ghost in_range: { lowest ≤ 65 },
    ghost degree_in_range: { known.degree ≤ known.seen },
    ghost aligned_in_range: { known.aligned ≤ known.seen + 1 },
}

impl Words {
    // Moves g down by whole words, until it is fewer than 64 bits above its place for a correction at t(n),
    // for n terms seen.
    fn align(&mut self)
        requires { self.old.known.seen ≤ 8192 }
        ensures moved { Aligned self.old.known self.old.g self.old.lowest self.new.known self.new.g }
        ensures kept { (self.new.f ≡ self.old.f) × (self.new.lowest ≡ self.old.lowest) }
    {
        // g is moved down by `aligned` − a₀ bits, for the number a₀ that `aligned` was at first
        while self.known.aligned + 64 <= self.known.seen + 1 {
            move_word(&mut self.g, self.lowest);
            self.known.aligned += 64;
        }
    }

    // Takes t(n), for n terms seen, which f does not fit. Let m = n + 1 − L. If m is at most L, f becomes
    // f + x^(L−m)·g. If not, f becomes x^(m−L)·f + g, of degree m, and the former f becomes g. In the words
    // both are the sum of f and g moved down.
    fn correct(&mut self)
        requires { WordsReady self.old.known self.old.lowest }
        ensures stepped { (ts : List ℕ)
            → WordsHold ts self.old.known self.old.f self.old.g self.old.lowest
            → Misfits ts self.old.known
            → WordsStepped ts self.old.known self.new.known self.new.f self.new.g self.new.lowest }
        ensures kept { self.new.lowest ≡ self.old.lowest }
    {
        let n = self.known.seen;
        let l = self.known.degree;
        let m = n + 1 - l;
        let k = (n + 1 - self.known.aligned) as u64;
        if m <= l {
            add_moved(&mut self.f, &self.g, self.lowest, k);
            self.known = self.known.reached(n + 1);
            return;
        }
        exchange(&mut self.f, &mut self.g, self.lowest, k);
        self.known = self.known.changed();
    }

    // Goes on past the next term that f does not fit, or past all m terms, if f fits those left.
    fn step(&mut self, m: usize)
        requires { (self.old.known.seen < m) × (64 * self.old.lowest + m ≤ 4096) }
        ensures advanced { (ts : List ℕ)
            → WordsHold ts self.old.known self.old.f self.old.g self.old.lowest
            → WordsAdvanced ts self.old.known m self.new.known self.new.f self.new.g self.new.lowest }
        ensures kept { self.new.lowest ≡ self.old.lowest }
    {
        let n = next_one(&self.f, self.known.seen, m);
        self.known = self.known.reached(n);
        if n == m {
            return;
        }
        self.align();
        self.correct();
    }

    // The words after all terms. At the start f is 1 and g is 0, with a discrepancy of 1 before the first
    // term.
    fn after_all(terms: &[u8]) -> Self
        requires { length terms.now ≤ 4096 }
        ensures seen { (result.known.seen ≡ length terms.now)
            × (64 * result.lowest + length terms.now ≤ 4096) }
        ensures words_hold { WordsHold terms.now result.known result.f result.g result.lowest }
    {
        let mut f = [0u64; 66];
        let mut g = [0u64; 66];
        pack(terms, &mut f);
        f[64] = 9223372036854775808;
        g[64] = 1;
        let mut words = Words {
            known: Progress {
                seen: 0,
                degree: 0,
                earlier: 0,
                aligned: 0,
            },
            f,
            g,
            lowest: 64 - (terms.len() + 63) / 64,
        };
        // the words hold what the model knows after the terms seen
        while words.known.seen < terms.len() {
            words.step(terms.len());
        }
        words
    }

    // One reduction step: treats place n ≥ m as if a further term had failed there. Overwrites f with
    // f + c·x^s·g, s = 2·L − 1 − n, for the coefficient c of f at the place of the leading 1 of x^s·g. If c
    // is 1, g is aligned first, as for a correction at t(n). The number n is `seen`, counted on from the m
    // terms.
    fn cancel(&mut self)
        requires { Reducible self.old.known }
        ensures cancelled { Cancelled self.old.known self.old.f self.old.g self.old.lowest
            self.new.known self.new.f self.new.g }
        ensures kept { self.new.lowest ≡ self.old.lowest }
    {
        if bit_at(
            &self.f,
            4157 + self.known.degree + self.known.earlier - self.known.seen,
        ) == 0
        {
            return;
        }
        self.align();
        let k = (self.known.seen + 1 - self.known.aligned) as u64;
        add_moved(&mut self.f, &self.g, self.lowest, k);
    }

    // Overwrites f with the first of the polynomials that fit.
    fn reduce(&mut self, terms: &[u8])
        requires terms_bound { (64 * self.old.lowest + length terms.now ≤ 4096)
            × (self.old.known.seen ≡ length terms.now) }
        requires words_hold { WordsHold terms.now self.old.known self.old.f self.old.g self.old.lowest }
        ensures { WordsReduced terms.now self.old.known self.new.f }
    {
        let l = self.known.degree;
        // f is 0 at the places from e + s to e + w − 1, for the degree e of g, s = 2·L − n for n counted so
        // far and w = 2·L − m for m terms
        for _ in self.known.seen..2 * l {
            self.cancel();
            self.known.seen += 1;
        }
    }
}

// The shortest recurrence over GF(2), as `shortest_recurrence` has it.
pub(crate) fn shortest(terms: &[u8], answer: &mut [u8], work: &mut [u8]) -> usize
    requires { RoomFor terms.now work.old × (4097 ≤ length answer.old) }
    ensures { ShortestRecurrence (prime 2) terms.now answer.old
        work.old result answer.new work.new }
{
    let mut words = Words::after_all(terms);
    let l = words.known.degree;
    words.reduce(terms);
    unpack(&words.f, 4159 - l, l + 1, answer);
    clear(work);
    l
}
