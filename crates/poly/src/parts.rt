// Lists as flat bytes: one after another in one slice, without gaps, and their lengths apart. Nothing is
// copied: each list is a part of the slice. Any bytes and any lengths will do.
ghost use Rattle.std.specs.Prelude.{◌≡◌};
ghost use Rattle.meaning.specs.FlatBytes.{split};
ghost use Rattle.meaning.specs.Slices.{lists_of};

// The parts of the flat bytes by nine lengths: one more than a set has factors. Each begins where the one
// before it ends, and ends at the end of the bytes if it would go beyond.
pub fn nine_parts<'a>(flat: &'a [u8], lengths: &[u64; 9]) -> [&'a [u8]; 9]
    ensures { lists_of result ≡ split flat.now lengths.now }
{
    let mut parts = [&flat[0..0]; 9];
    let mut rest = flat;
    // Invariant: the parts before i are in place, and those from i on are parts of the rest.
    for (i, length) in lengths.iter().enumerate() {
        let length = (*length as usize).min(rest.len());
        let (part, after) = rest.split_at(length);
        parts[i] = part;
        rest = after;
    }
    parts
}
