//! The text that `pairs` prints: the kept pairs that an update text leads to, and where the text was stopped at.
#![tactic(auto)]

ghost use Rattle.std.specs.Prelude.{◌≡◌, min, ◌++◌, length, IfOk, Err, string_bytes, OnOk};
ghost use Rattle.listing.specs.Report.{Reports, heading, numbers_text, pair_line, stop_text};

use board::{Board, PLACES};
use feeding::{Boarded, Stop, feed};
use keepers::{MOST_OPEN, Patient};
use proposals::{GroupSize, METERS, Proposal};
use std::alloc::{AllocError, Global};

/// What `pairs` prints for an update text: a heading, a line for each kept pair by rising lower meter,
/// and, where the text was stopped at, a line that says so.
pub fn report(heap: Global, text: &[u8]) -> Result<String, AllocError>
    ensures { IfOk result (λ s. Reports 256 4096 text.now (string_bytes s)) }
{
    let mut table = [Proposal::FILLER; MOST_OPEN];
    report_over(heap, text, &mut table)
}

/// The same, over a keeper that holds as many proposals as the table, and at most 4,096.
fn report_over(heap: Global, text: &[u8], table: &mut [Proposal]) -> Result<String, AllocError>
    ensures { IfOk result (λ s. Reports 256 (min (length table.old) 4096) text.now (string_bytes s)) }
{
    let mut board = Board::open(Patient::new(GroupSize::nearest(METERS), table));
    let fed = feed::<Boarded, _>(&mut board, text);
    let mut row = [0; PLACES];
    let pairs = board.list(&mut row).unwrap();
    write(heap, &row[..3 * pairs as usize], fed)
}

/// The heading, the lines of the pairs, which are given by three numbers each, and where a text was stopped at.
fn write(heap: Global, numbers: &[u32], fed: Result<usize, Stop>) -> Result<String, AllocError>
    ensures { IfOk result (λ s. string_bytes s ≡ heading ++ (numbers_text numbers.now ++ stop_text fed)) }
{
    let mut out = String::from_str(heap, "a;b;saving\n")?;
    write_pairs(&mut out, numbers)?;
    if let Err(stop) = fed {
        writeln!(out, "{stop}")?;
    }
    Ok(out)
}

/// Writes a line for each pair.
#[tactic(auto, using(crate::proofs::Writing::line_more))]
fn write_pairs(out: &mut String, numbers: &[u32]) -> Result<(), AllocError>
    ensures { OnOk result (string_bytes out.new ≡ string_bytes out.old ++ numbers_text numbers.now) }
{
    let mut left = numbers;
    while let [low, high, saving, rest @ ..] = left {
        write_pair(out, *low, *high, *saving)?;
        left = rest;
    }
    Ok(())
}

/// Writes the line of a pair: the lower meter, the higher one and what the two save.
fn write_pair(out: &mut String, low: u32, high: u32, saving: u32) -> Result<(), AllocError>
    ensures { OnOk result (string_bytes out.new ≡ string_bytes out.old ++ pair_line low high saving) }
{
    writeln!(out, "{low};{high};{saving}")
}
