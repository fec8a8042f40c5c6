// The records of a file by their lengths alone, with nothing checked. A byte that is the kind of no record
// counts as one all the same, so there is an answer for every file. No function here changes a byte.
ghost use Rattle.std.specs.Prelude.{◌≡◌, [], MatchOption, length, get_or, take, drop};
ghost use Rattle.std.proofs.Math.Option.{none, some};
ghost use Rattle.meaning.specs.Route.{look_up, body_lengths, bodies};
ghost use Rattle.route.specs.framing.Framing.{body_length, records_from};

use crate::kind::Kind;
use meaning::FoundRecord;

// The length that stands for a kind that there is not, more than any kind has.
pub const NO_KIND: usize = 255;

// The records of a file one after another: the byte that begins each, and its body, cut where the file ends.
#[derive(Clone, Copy)]
pub struct Records<'a> {
    rest: &'a [u8],
}

// The bodies of the records of one kind, one after another.
#[derive(Clone, Copy)]
pub struct Bodies<'a> {
    records: Records<'a>,
    kind: u8,
}

// The length of the body of a record by the byte that begins it; none where that is no kind.
fn known_length(kind: u8) -> Option<usize>
    ensures { MatchOption result (look_up kind body_lengths ≡ none)
        (λ n. look_up kind body_lengths ≡ some n) }
{
    Kind::try_from(kind).ok().map(Kind::body_length)
}

// The length of the body of a record by its kind.
pub fn body_length(kind: u8) -> usize
    ensures { result ≡ body_length kind }
{
    known_length(kind).unwrap_or(NO_KIND)
}

// The part of at most `count` bytes from the place `from` on, cut where the bytes end.
pub fn part(s: &[u8], from: usize, count: usize) -> &[u8]
    ensures { result.now ≡ take count (drop from s.now) }
{
    let rest = &s[from.min(s.len())..];
    &rest[..count.min(rest.len())]
}

impl<'a> Records<'a> {
    ghost use Rattle.route.specs.framing.Iterating.{left, size_of};

    // All records of a file.
    pub fn of(file: &'a [u8]) -> Records<'a>
        ensures { left result ≡ records_from file.now 0 }
    {
        Records { rest: file }
    }

    // How many bytes the records take that are left.
    pub fn size(&self) -> usize
        ensures { result ≡ size_of (left self.now) }
    {
        self.rest.len()
    }
}

impl<'a> Iterator for Records<'a> {
    ghost use Rattle.std.specs.Iterator.{YieldsFirstBy, item_count};
    ghost use Rattle.route.specs.framing.Iterating.{read, left};

    type Item = FoundRecord<'a>;

    ghost next_gives = { YieldsFirstBy read left };

    ghost remaining = { item_count left };

    fn next(&mut self) -> Option<FoundRecord<'a>> {
        let (first, after) = self.rest.split_first()?;
        let kind = *first;
        let (body, rest) = after.split_at(body_length(kind).min(after.len()));
        self.rest = rest;
        Some(FoundRecord { kind, body })
    }
}

impl<'a> Bodies<'a> {
    ghost use Rattle.route.specs.framing.Iterating.{bodies_left};

    // All bodies of a file with records of the kind.
    pub fn of(file: &'a [u8], kind: u8) -> Bodies<'a>
        ensures { bodies_left result ≡ bodies kind (records_from file.now 0) }
    {
        Bodies {
            records: Records::of(file),
            kind,
        }
    }
}

impl<'a> Iterator for Bodies<'a> {
    ghost use Rattle.std.specs.Iterator.{YieldsFirstRef, item_count};
    ghost use Rattle.route.specs.framing.Iterating.{bodies_left};

    type Item = &'a [u8];

    ghost next_gives = { YieldsFirstRef bodies_left };

    ghost remaining = { item_count bodies_left };

    fn next(&mut self) -> Option<&'a [u8]> {
        let kind = self.kind;
        let record = self.records.find(|record| record.kind == kind)?;
        Some(record.body)
    }
}

// The first body of a record of the kind; the empty part where there is none.
pub fn first_body(file: &[u8], kind: u8) -> &[u8]
    ensures { result.now ≡ get_or (bodies kind (records_from file.now 0)) 0 [] }
{
    Bodies::of(file, kind).next().unwrap_or(&[])
}

// The number of records of the kind.
pub fn count_of(file: &[u8], kind: u8) -> usize
    ensures { result ≡ length (bodies kind (records_from file.now 0)) }
{
    Bodies::of(file, kind).count()
}
