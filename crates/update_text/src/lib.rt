//! The update text: lines of fields that open and close proposals, read byte by byte.
#![tactic(auto)]

mod columns;
mod fields;
mod laws;
mod lines;
mod orders;
mod parts;

pub use columns::Columns;
pub use fields::Field;
pub use laws::{
    a_line_has_one_answer, a_names_line_places_the_columns, a_text_in_form_is_a_written_list,
    a_written_line_reads_back, cutting_and_joining_undo_each_other,
};
pub use lines::LineReader;
pub use orders::{Act, Entry, Flaw, Order};
pub use parts::{Part, Parts};
