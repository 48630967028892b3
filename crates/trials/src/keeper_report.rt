//! The report of an update text by the other way: fed to a keeper without a board, and combined once at the end.
use combining::{combine, kept_at};
use feeding::{Straight, feed};
use keepers::{MOST_OPEN, Patient, Reader};
use proposals::{GroupSize, METERS, Proposal};
use std::alloc::{AllocError, Global};

/// What `pairs` prints for an update text: a heading, a line for each kept pair by rising lower meter,
/// and, where the text was stopped at, a line that says so.
pub(crate) fn report_over_a_keeper(heap: Global, text: &[u8]) -> Result<String, AllocError> {
    let mut table = [Proposal::FILLER; MOST_OPEN];
    let mut keeper = Patient::new(GroupSize::nearest(METERS), &mut table);
    let fed = feed::<Straight, _>(&mut keeper, text);
    let mut out = String::from_str(heap, "a;b;saving\n")?;
    write_pairs(&mut out, &keeper)?;
    if let Err(stop) = fed {
        writeln!(out, "{stop}")?;
    }
    Ok(out)
}

/// Writes a line for each pair that combining keeps: the lower meter, the higher one, and what the two save.
fn write_pairs<R: Reader>(out: &mut String, reader: &R) -> Result<(), AllocError> {
    let mut row = [0; METERS as usize];
    if combine(reader, &mut row).is_err() {
        return Ok(());
    }
    for kept in (0..METERS).filter_map(|low| kept_at(reader, &row, low)) {
        let low = kept.low();
        let high = kept.high();
        let saving = kept.saving();
        writeln!(out, "{low};{high};{saving}")?;
    }
    Ok(())
}
