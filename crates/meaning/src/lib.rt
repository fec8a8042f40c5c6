// What the public calls answer: a rating, or the refusal of the numbered list. The contracts and the theorems
// speak of these types through the definitions of specs/Answers.antt, which give each case its number and its
// values. The only code here gives a refusal its number.
#![tactic(auto)]

ghost use Rattle.std.specs.Prelude.{◌≡◌};
ghost use Rattle.meaning.specs.Answers.{number_of};

// The name of a field: GF(p) by its prime p, GF(2^n) by its degree n and the coefficients of its reducing
// polynomial below y^n, as the bits of a number. Any numbers are a name; 6 turns down those of the first kind
// that name no field in range, and 20 those of the second.
#[derive(Clone, Copy)]
pub enum FieldName {
    Prime(u64),
    Binary { degree: u64, low: u64 },
}

// Why a call is turned down, in the order of the numbered list (1 to 20).
#[derive(Clone, Copy)]
pub enum Refusal {
    // 1: the file has more than 16,384 bytes
    FileTooLong = 1,
    // 2: the kind byte of a record is not 1 to 9
    UnknownKind = 2,
    // 3: the file ends inside a body or before the end record
    FileCutShort = 3,
    // 4: a record is out of place
    RecordOutOfPlace = 4,
    // 5: the mode is unknown, or the factors do not suit it
    ModeUnsuited = 5,
    // 6: p is not a prime from 2 to 251
    NotPrime = 6,
    // 7: no terms or too many; for a continuation, no places to fill or too many, or the place is past the
    // buffer
    CountOutOfRange = 7,
    // 8: a term is not an element of the field
    TermOutOfField = 8,
    // 9: no factor, or more than eight
    FactorCount = 9,
    // 10: a degree out of range
    DegreeOutOfRange = 10,
    // 11: a coefficient is not an element of the field, or the leading one is 0, or there is none
    CoefficientOutOfRange = 11,
    // 12: a reducible factor
    Reducible = 12,
    // 13: two equal factors
    EqualFactors = 13,
    // 14: an upper power of 0, or a total degree above 4,096
    UpperPowers = 14,
    // 15: fewer terms than the total degree; for a continuation, not as many starting terms as the degree
    TooFewTerms = 15,
    // 16: the lent answer or the lent work bytes are too short
    LentTooShort = 16,
    // 17: nothing allowed annihilates the terms
    NotAnnihilated = 17,
    // 18: the meter already holds 4,096 terms
    MeterFull = 18,
    // 19: no entry of the catalogue has a power that annihilates the period
    NoEntry = 19,
    // 20: n is not 2 to 8, or the reducing polynomial has a bit at or above n or is reducible
    NotBinaryField = 20,
}

// The number of a refusal in the list.
impl From<Refusal> for u64 {
    ghost from_gives = { λ refusal number. number ≡ number_of refusal };

    fn from(refusal: Refusal) -> u64 {
        refusal as u64
    }
}

// The rating of a period: f to the least power annihilates it, and it repeats every `repeat` terms.
#[derive(Clone, Copy)]
pub struct PowerRating {
    pub power: u64,
    pub degree: u64,
    pub repeat: u64,
}

// The rating of a portion with one to eight factors: `count` powers in the order of the factors, then zeros.
// The continuation repeats every `repeat` terms; 0 where it never does, or not within 65,536 terms.
#[derive(Clone, Copy)]
pub struct SetRating {
    pub degree: u64,
    pub repeat: u64,
    pub count: u64,
    pub powers: [u64; 8],
}

// The rating of a portion alone: the least degree, and whether one polynomial fits or several may.
#[derive(Clone, Copy)]
pub enum FreeRating {
    Unique { degree: u64 },
    Several { degree: u64 },
}

// A meter that shows the rating of a portion alone after each term: the field that it was started for, how
// many terms it holds, the least degree for these, and what the next step needs beside the polynomials in the
// lent work bytes: how many coefficients the earlier one has, the inverse of its discrepancy, and the half in
// which the present one stands.
#[derive(Clone, Copy)]
pub struct Meter {
    pub field: FieldName,
    pub held: usize,
    pub degree: usize,
    pub earlier: usize,
    pub inverse: u8,
    pub half: usize,
}

// A meter after one term more, or as it was where the term is refused, and the reading or the refusal.
#[derive(Clone, Copy)]
pub struct MeterStep {
    pub reading: Result<FreeRating, Refusal>,
    pub meter: Meter,
}

// What a search of the catalogue finds: the first entry with a power that annihilates the period, and the
// least such power.
#[derive(Clone, Copy)]
pub struct EntryRating {
    pub entry: u64,
    pub power: u64,
}

// The rating of what a route file holds: in the period mode and the set mode with `count` powers, then zeros.
// The density is the degree over the denominator: the shortest period in the period mode, and else the number
// of terms.
#[derive(Clone, Copy)]
pub enum FileOutcome {
    Powers {
        degree: u64,
        denominator: u64,
        count: u64,
        powers: [u64; 8],
    },
    Unique {
        degree: u64,
        denominator: u64,
    },
    Several {
        degree: u64,
        denominator: u64,
    },
}

// The rating of a route file or its refusal, with the number of the box that sent it.
#[derive(Clone, Copy)]
pub struct FileRating {
    pub sender: u64,
    pub outcome: Result<FileOutcome, Refusal>,
}

// What the route reader hands back: the kind of a record, and its body, which is a part of the lent file.
#[derive(Clone, Copy)]
pub struct FoundRecord<'a> {
    pub kind: u8,
    pub body: &'a [u8],
}

// FOR OTHER LANGUAGES: what the exported calls take and return by value, laid out as C lays it out. The
// status is 0, or the number of the refusal; then every other number is 0.

// A field by two numbers: GF(number) where the degree is 0, and else GF(2^degree), reduced by y^degree and
// the bits of the number.
#[repr(C)]
#[derive(Clone, Copy)]
pub struct FieldNumbers {
    pub degree: u64,
    pub number: u64,
}

// A rating. The powers stand in the order of the factors, then zeros; the word of the free way is 1 for
// `one` and 2 for `some`. What a way does not tell is 0.
#[repr(C)]
#[derive(Clone, Copy)]
pub struct Rating {
    pub status: u64,
    pub complexity: u64,
    pub repeat: u64,
    pub word: u64,
    pub powers: [u64; 8],
}

// The answer to a question: 1 for yes, 0 for no.
#[repr(C)]
#[derive(Clone, Copy)]
pub struct Answer {
    pub status: u64,
    pub yes: u64,
}

// What a search of the catalogue finds.
#[repr(C)]
#[derive(Clone, Copy)]
pub struct Entry {
    pub status: u64,
    pub entry: u64,
    pub power: u64,
}

// What the route reader finds: the body of the record is the part of the file that begins at `from` and has
// `length` bytes.
#[repr(C)]
#[derive(Clone, Copy)]
pub struct Found {
    pub status: u64,
    pub kind: u64,
    pub from: u64,
    pub length: u64,
}
