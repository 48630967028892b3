ghost use Rattle.std.specs.Prelude.{◌≡◌, ℕ, List, Decides, MatchOption};
ghost use Rattle.update_text.specs.Numbers.{IsNumber, read_on};
ghost use Rattle.update_text.specs.Fields.{Reads, bytes_of, hyphen, place_of};

/// A field of a line: the part of the text that it is, and the byte where that begins.
/// Each case has both, and not a struct with a kind: that is the form in which fields are asked for.
#[derive(Clone, Copy)]
pub enum Field<'a> {
    /// Neither a number nor a hyphen; it may be empty.
    Word {
        bytes: &'a [u8],
        at: usize,
    },
    /// 1 to 7 decimal digits, without a leading zero unless it is 0.
    Number {
        value: u32,
        bytes: &'a [u8],
        at: usize,
    },
    /// The one byte `-`.
    Hyphen {
        bytes: &'a [u8],
        at: usize,
    },
}

/// The number that the bytes write.
#[tactic(auto, using(crate::proofs::Digits::small, crate::proofs::Digits::read_on_more))]
fn number(bytes: &[u8]) -> Option<u32>
    ensures { MatchOption result (IsNumber bytes.now → ⊥) (λ n. IsNumber bytes.now × (n ≡ read_on 0 bytes.now)) }
{
    if bytes.is_empty() || bytes.len() > 7 {
        return None;
    }
    if bytes[0] == b'0' && bytes.len() > 1 {
        return None;
    }
    let mut n: u32 = 0;
    for b in bytes {
        if !b.is_ascii_digit() {
            return None;
        }
        n = 10 * n + u32::from(*b - b'0');
    }
    Some(n)
}

impl<'a> Field<'a> {
    /// The field that the bytes are, which begin at the byte `at` of the text.
    pub fn of(bytes: &'a [u8], at: usize) -> Field<'a>
        ensures { Reads result bytes.now at }
    {
        if let [b'-'] = bytes {
            return Field::Hyphen { bytes, at };
        }
        match number(bytes) {
            Some(value) => Field::Number { value, bytes, at },
            None => Field::Word { bytes, at },
        }
    }

    /// The bytes of the field.
    pub fn bytes(self) -> &'a [u8]
        ensures { result.now ≡ bytes_of self.entry }
    {
        match self {
            Field::Word { bytes, .. } => bytes,
            Field::Number { bytes, .. } => bytes,
            Field::Hyphen { bytes, .. } => bytes,
        }
    }

    /// The byte of the text where the field begins.
    pub fn at(self) -> usize
        ensures { result ≡ place_of self.entry }
    {
        match self {
            Field::Word { at, .. } => at,
            Field::Number { at, .. } => at,
            Field::Hyphen { at, .. } => at,
        }
    }

    /// Whether the field is a number.
    pub fn is_number(self) -> bool
        ensures { (bs : List ℕ) → Reads self.entry bs (place_of self.entry) → Decides result (IsNumber bs) }
    {
        matches!(self, Field::Number { .. })
    }

    /// Whether the field is a hyphen.
    pub fn is_hyphen(self) -> bool
        ensures { (bs : List ℕ) → Reads self.entry bs (place_of self.entry) → Decides result (bs ≡ hyphen) }
    {
        matches!(self, Field::Hyphen { .. })
    }
}
