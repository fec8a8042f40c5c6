// What the free way over GF(2) does with lists of 66 words of 64 bits, the lowest word first: bit i is bit
// i % 64 of word i / 64. The functions that move and add change the words from a on, but not the last, which
// is 0.
ghost use Rattle.std.specs.Prelude.{◌≡◌, ℕ, ◌+◌, ◌*◌, ◌-◌, ◌/◌, ◌%◌, ◌≤◌, ◌<◌, length, get_or};
ghost use Rattle.meaning.specs.Result.{written};
ghost use Rattle.bridge.proofs.Lists.Monics.{digit};
ghost use Rattle.massey.specs.words.Words.{bit_of, bits_from, Window, Room, Moved, Added, Exchanged};
ghost use Rattle.massey.specs.words.Words.{NextOne, TermsPacked};

// The 64 bits from bit k of a word on, which the next word continues, for k below 64. (No word is shifted by
// 64.)
fn window(lower: u64, upper: u64, k: u64) -> u64
    requires { k < 64 }
    ensures { Window lower upper k result }
{
    (lower >> k) ^ ((upper << 1) << (63 - k))
}

// Moves g down by one word.
pub(crate) fn move_word(g: &mut [u64], a: usize)
    requires { Room g.old × (a ≤ 65) }
    ensures { Moved g.old a g.new }
{
    // the words before j are moved
    for j in a..65 {
        g[j] = g[j + 1];
    }
}

// Adds g, moved down by k bits, to f, for k below 64.
pub(crate) fn add_moved(f: &mut [u64], g: &[u64], a: usize, k: u64)
    requires { Room f.old × Room g.now × (a ≤ 65) × (k < 64) }
    ensures { Added f.old g.now a k f.new }
{
    // the words before j are added
    for j in a..65 {
        f[j] = f[j] ^ window(g[j], g[j + 1], k);
    }
}

// The same, and overwrites g with the former f.
pub(crate) fn exchange(f: &mut [u64], g: &mut [u64], a: usize, k: u64)
    requires { Room f.old × Room g.old × (a ≤ 65) × (k < 64) }
    ensures { Exchanged f.old g.old a k f.new g.new }
{
    // the words before j are exchanged
    for j in a..65 {
        let former = f[j];
        f[j] = former ^ window(g[j], g[j + 1], k);
        g[j] = former;
    }
}

// The first t from n on, and before m, whose bit is 1, or m if there is none. The bit of t is bit 4,095 − t
// of f.
pub(crate) fn next_one(f: &[u64], n: usize, m: usize) -> usize
    requires { (length f.now ≡ 66) × (n ≤ m) × (m ≤ 4096) }
    ensures { NextOne f.now n m result }
{
    let mut t = n;
    // the bits from that of n to that of t − 1 are 0
    while t < m {
        let rest = f[63 - t / 64] << ((t % 64) as u64);
        if rest != 0 {
            return (t + (u64::leading_zeros(rest) as usize)).min(m);
        }
        t = 64 * (t / 64 + 1);
    }
    m
}

// The word of 1 to 64 terms, the first in its highest bit.
fn packed(s: &[u8]) -> u64
    requires { (0 < length s.now) × (length s.now ≤ 64) }
    ensures { (i : ℕ) → i < 64 → digit 2 result (63 - i) ≡ get_or s.now i 0 % 2 }
{
    let mut w = 0;
    // w: the word of the terms so far, the last of them in its lowest bit
    for term in s {
        w = 2 * w + (*term % 2) as u64;
    }
    w << ((64 - s.len()) as u64)
}

// Writes the bits of the terms into f, which is all zeros: that of t(n) is bit 4,095 − n.
pub(crate) fn pack(terms: &[u8], f: &mut [u64])
    requires { (length terms.now ≤ 4096) × (length f.old ≡ 66) × ((j : ℕ) → get_or f.old j 0 ≡ 0) }
    ensures { TermsPacked terms.now f.new }
{
    // the first 64·i terms are packed, and the words below them and above are 0
    for (i, block) in terms.chunks(64).enumerate() {
        f[63 - i] = packed(block);
    }
}

// Bit i.
pub(crate) fn bit_at(w: &[u64], i: usize) -> u8
    requires { i / 64 < length w.now }
    ensures { result ≡ bit_of w.now i }
{
    let k = (i % 64) as u64;
    ((w[i / 64] >> k) % 2) as u8
}

// Writes the n bits from bit o on at the front of the answer. The rest of it stays as it was.
pub(crate) fn unpack(w: &[u64], o: usize, n: usize, answer: &mut [u8])
    requires { (o + n ≤ 4224) × (length w.now ≡ 66) × (n ≤ length answer.old) }
    ensures { answer.new ≡ written (bits_from w.now o n) answer.old }
{
    // the first i bits are written
    for i in 0..n {
        answer[i] = bit_at(w, o + i);
    }
}
