ghost use Rattle.std.specs.Prelude.{◌≡◌, ℕ, ◌<◌, ◌≤◌, List, Decides, MatchResult, ◌≢◌};
ghost use Rattle.proposals.specs.declared.refusals.Reason.TheVariants.{BadField, UnknownAct};
ghost use Rattle.update_text.specs.Fields.{Reads, bytes_of, place_of};
ghost use Rattle.update_text.specs.Lines.{Counted, FieldAt, field_of, field_start};
ghost use Rattle.update_text.specs.Names.{Placing};
ghost use Rattle.update_text.specs.Numbers.{IsNumber};
ghost use Rattle.update_text.specs.Orders.{Answered, EntryAt, FirstOff, Flawed, InForm, Whole, act_word, text_flaw};
ghost use Rattle.update_text.specs.declared.columns.Columns.{Columns as Places};
ghost use Rattle.update_text.specs.declared.orders.Act.{Act as AnyAct};

use crate::columns::Columns;
use crate::fields::Field;
use crate::lines::Row;
use crate::parts::Part;
use proposals::{Layer, Reason, Refusal};

/// What a line does to the open proposals: it adds one, or takes one off.
#[derive(Clone, Copy)]
pub enum Act {
    Add,
    Off,
}

/// A number of the text, and the byte where it begins.
#[derive(Clone, Copy)]
pub struct Entry {
    pub value: u32,
    pub at: usize,
}

/// What a line asks for.
#[derive(Clone, Copy)]
pub enum Order {
    Add { a: Entry, b: Entry, saving: Entry },
    Off { a: Entry, b: Entry },
}

/// A refusal, and the byte of the text that is at fault.
#[derive(Clone, Copy)]
pub struct Flaw {
    pub byte: usize,
    pub refusal: Refusal,
}

impl Flaw {
    /// What this layer finds wrong at a byte.
    pub fn new(byte: usize, reason: Reason) -> Flaw
        ensures { result ≡ text_flaw byte reason }
    {
        Flaw {
            byte,
            refusal: reason.found_by(Layer::Text),
        }
    }
}

/// The act that a field names.
fn act_of(field: Field) -> Result<Act, Flaw>
    ensures { MatchResult result (λ act. bytes_of field.entry ≡ act_word act) (λ e. (e ≡ text_flaw (place_of field.entry) UnknownAct) × ((act : AnyAct) → bytes_of field.entry ≢ act_word act)) }
{
    match field.bytes() {
        [b'a', b'd', b'd'] => Ok(Act::Add),
        [b'o', b'f', b'f'] => Ok(Act::Off),
        _ => Err(Flaw::new(field.at(), Reason::UnknownAct)),
    }
}

/// The row of a line. Refuses a line that does not end, or has not four fields.
#[tactic(auto, using(crate::proofs::Flaws::not_fed, crate::proofs::Flaws::of_four))]
fn row_of(line: Part) -> Result<Row, Flaw>
    ensures { MatchResult result (λ row. Whole line.entry × (row.line ≡ line.entry)) (λ e. (columns : Places) → Flawed columns line.entry e) }
{
    if !line.marked {
        return Err(Flaw::new(line.at, Reason::NoLineFeed));
    }
    Row::of(line).ok_or(Flaw::new(line.at, Reason::NotFourFields))
}

/// The field at a place of a row. There are four places.
#[tactic(auto, using(crate::proofs::Places::ok_or_cases, crate::proofs::Reading::field_or))]
fn field_at<'a>(row: &Row<'a>, place: usize) -> Result<Field<'a>, Flaw>
    ensures { MatchResult result (FieldAt row.now.line place) (λ _. 4 ≤ place) }
{
    row.field(place)
        .ok_or(Flaw::new(row.line.at, Reason::NotFourFields))
}

/// The number at a place of a row.
fn entry_at(row: &Row, place: usize) -> Result<Entry, Flaw>
    ensures { Counted row.now.line → MatchResult result (EntryAt row.now.line place) (λ _. IsNumber (field_of row.now.line place) → ⊥) }
{
    match field_at(row, place)? {
        Field::Number { value, at, .. } => Ok(Entry { value, at }),
        other => Err(Flaw::new(other.at(), Reason::BadField)),
    }
}

impl Columns {
    /// Whether a field has the form that its column asks for: a number, but for the saving of a line that takes off, which is a hyphen.
    fn in_form(self, act: Act, place: usize, field: Field) -> bool
        ensures { Placing self → (bytes : List ℕ) → Reads field.entry bytes (place_of field.entry) → Decides result (InForm self act place bytes) }
    {
        if place == self.a || place == self.b {
            return field.is_number();
        }
        if place != self.saving {
            return true;
        }
        match act {
            Act::Add => field.is_number(),
            Act::Off => field.is_hyphen(),
        }
    }

    /// Refuses the first field of a row that is not in its form.
    fn check_forms(self, act: Act, row: &Row) -> Result<(), Flaw>
        ensures { Counted row.now.line → Placing self → MatchResult result (λ _. (k : ℕ) → k < 4 → InForm self act k (field_of row.now.line k)) (λ e. ((k : ℕ) × FirstOff self act row.now.line k × (e ≡ text_flaw (field_start row.now.line k) BadField))) }
    {
        for (place, field) in row.fields.iter().enumerate() {
            if !self.in_form(act, place, *field) {
                return Err(Flaw::new(field.at(), Reason::BadField));
            }
        }
        Ok(())
    }

    /// What a line asks for.
    #[tactic(auto, using(crate::proofs::Flaws::unknown_act))]
    pub fn read_order(self, line: Part) -> Result<Order, Flaw>
        ensures { Counted line.entry → Placing self → Answered self line.entry result }
    {
        let row = row_of(line)?;
        let act = act_of(field_at(&row, self.act)?)?;
        self.check_forms(act, &row)?;
        let a = entry_at(&row, self.a)?;
        let b = entry_at(&row, self.b)?;
        match act {
            Act::Add => {
                let saving = entry_at(&row, self.saving)?;
                Ok(Order::Add { a, b, saving })
            }
            Act::Off => Ok(Order::Off { a, b }),
        }
    }
}
