ghost use Rattle.std.specs.Prelude.{◌≡◌, ◌==◌};
ghost use Rattle.std.specs.Iterator.{at_most};
ghost use Rattle.std.specs.List.{position};
ghost use Rattle.update_text.specs.Steps.{NextPart, Started, is_end, to_read};

/// A part of a text: its bytes, the byte of the text where it begins, and whether a mark follows it.
/// That its end can be counted is a premise of the contracts (`Counted`): as an invariant it would ask more of who writes a part.
#[derive(Clone, Copy)]
pub struct Part<'a> {
    pub bytes: &'a [u8],
    pub at: usize,
    /// A flag and no `Option`: the part before it is there with and without a mark.
    pub marked: bool,
}

impl Part<'_> {
    /// Whether this is the empty end of a text, after its last mark.
    pub fn is_end(self) -> bool
        ensures { result ≡ is_end self.entry }
    {
        !self.marked && self.bytes.is_empty()
    }
}

/// Takes a text apart at a mark: hands out one part after the other.
/// A text without a mark is one part, be it empty or not.
#[derive(Drop)]
pub struct Parts<'a> {
    mark: u8,
    /// What is left of the text; none after the last part.
    rest: Option<&'a [u8]>,
    /// The byte where the text ends.
    end: usize,
}

/// The first place of a mark among bytes.
fn place_of(mark: u8, bytes: &[u8]) -> Option<usize>
    ensures { result ≡ position (λ b. b == mark) bytes.now }
{
    bytes.iter().position(|byte| *byte == mark)
}

impl<'a> Parts<'a> {
    /// The parts of a text that begins at the byte `at`.
    pub fn of(bytes: &'a [u8], at: usize, mark: u8) -> Parts<'a>
        ensures { Started result bytes.now at mark }
    {
        Parts {
            mark,
            rest: Some(bytes),
            end: at.saturating_add(bytes.len()),
        }
    }
}

impl<'a> Iterator for Parts<'a> {
    type Item = Part<'a>;

    ghost next_gives = { NextPart };

    ghost remaining = { λ s. at_most (to_read s) };

    #[tactic(auto, using(crate::proofs::Cutting::took_marked, crate::proofs::Cutting::took_last))]
    fn next(&mut self) -> Option<Part<'a>> {
        let rest = self.rest?;
        let at = self.end.saturating_sub(rest.len());
        match place_of(self.mark, rest) {
            Some(n) => {
                self.rest = Some(&rest[n + 1..]);
                Some(Part {
                    bytes: &rest[..n],
                    at,
                    marked: true,
                })
            }
            None => {
                self.rest = None;
                Some(Part {
                    bytes: rest,
                    at,
                    marked: false,
                })
            }
        }
    }
}
