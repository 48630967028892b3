ghost use Rattle.std.specs.Prelude.{◌≡◌, IfErr, Some};
ghost use Rattle.update_text.specs.Lines.{Counted};
ghost use Rattle.update_text.specs.Names.{Placing};
ghost use Rattle.feeding.specs.Obeying.{Obeys, flaw_of};
ghost use Rattle.feeding.specs.Texts.{Feeding, NamesTaken, ObeyedLine, names_stop, stop_line};

use crate::ways::Way;
use proposals::{Layer, Pair, Proposal, Reason, Refusal};
use std::fmt;
use update_text::{Columns, Flaw, Order, Part, Parts};

/// The most bytes that a text has.
pub const TEXT_LIMIT: usize = 32768;

/// Where a text was stopped at, and why.
#[derive(Clone, Copy)]
pub struct Stop {
    /// How many lines after the names line were done before.
    pub done: usize,
    /// The line at fault; the names line is 1.
    pub line: usize,
    /// The byte at fault, counted from 0 in the whole text.
    pub byte: usize,
    pub refusal: Refusal,
}

impl Stop {
    /// A stop at the names line, before any line is done.
    fn at_names(reason: Reason) -> Stop
        ensures { result ≡ names_stop reason }
    {
        Stop {
            done: 0,
            line: 1,
            byte: 0,
            refusal: reason.found_by(Layer::Text),
        }
    }
}

impl fmt::Display for Stop {
    ghost output = { λ stop. Some (stop_line stop) };

    fn fmt<W: fmt::Write>(&self, f: &mut fmt::Formatter<W>) -> fmt::Result {
        let line = self.line;
        let byte = self.byte;
        let number = self.refusal.number();
        write!(f, "stopped;{line};{byte};{number}")
    }
}

/// Gives a recipient what the lines of a text ask for, one by one, and stops at the first refusal: the lines before it stay done.
/// Answers how many lines after the names line were done.
pub fn feed<W: Way<T>, T>(recipient: &mut T, text: &[u8]) -> Result<usize, Stop>
    ensures sound { W.sound recipient.old → W.sound recipient.new }
    ensures fed { W.sound recipient.old → Feeding text.now (W.meaning recipient.old) result (W.meaning recipient.new) }
    ensures untouched { IfErr result (λ e. e.line ≡ 1 → recipient.new ≡ recipient.old) }
{
    if text.len() > TEXT_LIMIT {
        return Err(Stop::at_names(Reason::TextTooLong));
    }
    let mut lines = Parts::of(text, 0, b'\n');
    let Some(columns) = read_names(&mut lines) else {
        return Err(Stop::at_names(Reason::BadNamesLine));
    };
    // Counted here, as `enumerate` would not tell how many there were once the lines are at their end.
    let mut done = 0;
    for line in lines {
        if line.is_end() {
            return Ok(done);
        }
        if let Err(flaw) = obey_line::<W, T>(recipient, columns, line) {
            return Err(Stop {
                done,
                line: done + 2,
                byte: flaw.byte,
                refusal: flaw.refusal,
            });
        }
        done += 1;
    }
    Ok(done)
}

/// The columns that the first line of a text names.
fn read_names(lines: &mut Parts) -> Option<Columns>
    ensures { NamesTaken lines.old result lines.new }
{
    Columns::read(lines.next()?)
}

/// Does what one line asks for.
fn obey_line<W: Way<T>, T>(recipient: &mut T, columns: Columns, line: Part) -> Result<(), Flaw>
    ensures sound { W.sound recipient.old → W.sound recipient.new }
    ensures exact { W.sound recipient.old → Counted line.entry → Placing columns → ObeyedLine columns line.entry (W.meaning recipient.old) result (W.meaning recipient.new) }
{
    let order = columns.read_order(line)?;
    let meters = W::size(recipient).meters();
    obey::<W, T>(recipient, order).map_err(|refusal| flaw_of(meters, line.at, order, refusal))
}

/// Makes the call that an order asks for.
fn obey<W: Way<T>, T>(recipient: &mut T, order: Order) -> Result<(), Refusal>
    ensures sound { W.sound recipient.old → W.sound recipient.new }
    ensures exact { W.sound recipient.old → Obeys (W.meaning recipient.old) order result (W.meaning recipient.new) }
{
    match order {
        Order::Add { a, b, saving } => {
            W::add(recipient, Proposal::new(a.value, b.value, saving.value)?)
        }
        Order::Off { a, b } => W::take_off(recipient, Pair::new(a.value, b.value)?),
    }
}

/// A refusal of a call with the byte that is at fault, in a group of so many meters and a line that begins at the byte `start`.
fn flaw_of(meters: u32, start: usize, order: Order, refusal: Refusal) -> Flaw
    ensures { result ≡ flaw_of meters start order refusal }
{
    let (a, b, saving_at) = match order {
        Order::Add { a, b, saving } => (a, b, saving.at),
        Order::Off { a, b } => (a, b, start),
    };
    let byte = match refusal.reason {
        Reason::EqualMeters => b.at,
        Reason::SavingOutOfRange => saving_at,
        Reason::MeterOutsideGroup => { if a.value >= meters { a.at } else { b.at } }
        _ => start,
    };
    Flaw { byte, refusal }
}
