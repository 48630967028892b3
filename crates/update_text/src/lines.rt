ghost use Rattle.std.specs.Prelude.{◌≡◌, ◌≢◌, length, MatchOption};
ghost use Rattle.std.specs.Iterator.{at_most};
ghost use Rattle.std.specs.List.{slice_get};
ghost use Rattle.update_text.specs.Lines.{IsRow, IsRow-prop, NextField, fields_of};
ghost use Rattle.update_text.specs.Steps.{Started, to_read};

use crate::fields::Field;
use crate::parts::{Part, Parts};

/// Hands out the fields of a line one by one.
#[derive(Drop)]
pub struct LineReader<'a> {
    fields: Parts<'a>,
}

impl<'a> LineReader<'a> {
    /// A reader at the start of a line.
    pub fn new(line: Part<'a>) -> LineReader<'a>
        ensures { Started result.fields line.entry.bytes.now line.entry.at 59 }
    {
        LineReader {
            fields: Parts::of(line.bytes, line.at, b';'),
        }
    }
}

impl<'a> Iterator for LineReader<'a> {
    type Item = Field<'a>;

    ghost next_gives = { NextField };

    ghost remaining = { λ s. at_most (to_read s.fields) };

    fn next(&mut self) -> Option<Field<'a>> {
        let part = self.fields.next()?;
        Some(Field::of(part.bytes, part.at))
    }
}

/// A line of four fields, with these fields.
#[derive(Clone, Copy)]
pub struct Row<'a> {
    pub line: Part<'a>,
    pub fields: [Field<'a>; 4],
    ghost each: { IsRow line fields } by { IsRow-prop line fields },
}

impl<'a> Row<'a> {
    /// The row of a line, if it has exactly four fields.
    pub fn of(line: Part<'a>) -> Option<Row<'a>>
        ensures { MatchOption result (length (fields_of line.entry) ≢ 4) (λ row. row.line ≡ line.entry) }
    {
        let mut reader = LineReader::new(line);
        let fields = [
            reader.next()?,
            reader.next()?,
            reader.next()?,
            reader.next()?,
        ];
        match reader.next() {
            Some(_) => None,
            None => Some(Row { line, fields }),
        }
    }

    /// The field at a place.
    pub fn field(&self, place: usize) -> Option<Field<'a>>
        ensures { result ≡ slice_get self.now.fields place }
    {
        self.fields.get(place).copied()
    }
}
