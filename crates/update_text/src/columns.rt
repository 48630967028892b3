ghost use Rattle.std.specs.Prelude.{◌≡◌, ℕ, ◌<◌, MatchOption, ◌≢◌};
ghost use Rattle.update_text.specs.Lines.{field_of};
ghost use Rattle.update_text.specs.Names.{NamesLine};
ghost use Rattle.update_text.specs.declared.columns.Columns.{Columns as Places};

use crate::lines::Row;
use crate::parts::Part;

/// The place of each column in a line, counted from 0.
/// That these are four places is a premise of the contracts (`Placing`): as an invariant it would ask more of who writes the columns.
#[derive(Clone, Copy)]
pub struct Columns {
    pub act: usize,
    pub a: usize,
    pub b: usize,
    pub saving: usize,
}

impl Columns {
    /// The places that a names line gives: the four names, each once, in any order, ended by a line feed.
    pub fn read(line: Part) -> Option<Columns>
        ensures { MatchOption result ((p : Places) → NamesLine p line.entry → ⊥) (λ p. NamesLine p line.entry) }
    {
        if !line.marked {
            return None;
        }
        let row = Row::of(line)?;
        Some(Columns {
            act: place_of(&row, b"act")?,
            a: place_of(&row, b"a")?,
            b: place_of(&row, b"b")?,
            saving: place_of(&row, b"saving")?,
        })
    }
}

/// The first place of a name among the fields of a line.
fn place_of(row: &Row, name: &[u8]) -> Option<usize>
    ensures { MatchOption result ((k : ℕ) → k < 4 → field_of row.now.line k ≢ name.now) (λ k. field_of row.now.line k ≡ name.now) }
{
    // A loop, since the check finds no proof of `position` with a closure over fields that borrow the text.
    for (place, field) in row.fields.iter().enumerate() {
        if field.bytes() == name {
            return Some(place);
        }
    }
    None
}
