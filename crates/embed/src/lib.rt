//! The board for a program in C: a few functions on numbers and byte slices. The header is embed/cupboarddove.h.
#![tactic(auto)]

ghost use Rattle.std.specs.Prelude.{◌≡◌, length};
ghost use Rattle.proposals.specs.Levels.{level_of};
ghost use Rattle.embed.specs.Embedding.{Reported, placed};

use listing::report;
use std::alloc::Global;

/// Writes the report that `pairs` prints for an update text into a row of bytes, from its start, and answers how many bytes it has:
/// C lends bytes and reads a count.
/// A row that is too short is left as it is. Answers 0, and leaves the row, for want of memory: C has no `Result`.
#[unsafe(no_mangle)]
pub extern "C" fn cupboarddove_report(heap: Global, text: &[u8], out: &mut [u8]) -> usize
    ensures { Reported text.now out.old result out.new }
{
    match report(heap, text) {
        Ok(printed) => place(printed.as_bytes(), out),
        Err(_) => 0,
    }
}

/// The level of a saving; a number that is no saving gets the nearest level.
#[unsafe(no_mangle)]
pub extern "C" fn cupboarddove_level(saving: u32) -> u32
    ensures { result ≡ level_of 2 saving }
{
    proposals::level(saving)
}

/// Writes bytes into a row, from its start, if they fit. Answers how many they are.
fn place(bytes: &[u8], out: &mut [u8]) -> usize
    ensures count { result ≡ length bytes.now }
    ensures written { out.new ≡ placed bytes.now out.old }
{
    let count = bytes.len();
    if count <= out.len() {
        out[0..count].copy_from_slice(bytes);
    }
    count
}
