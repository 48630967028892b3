//! Works through a morning of one group of meters over a keeper alone, and tells what happens in a planner's words.
#![tactic(auto)]

use combining::{combine, kept_at};
use keepers::{Keeper, Patient, Reader};
use proposals::{GroupSize, Pair, Proposal, Refusal};
use story::{EVENTS, Event, METERS, ROOM};

fn main(rt: HostRuntime) -> anyhow::Result<()> {
    tell(&rt)
}

/// Opens the group and tells its whole story.
fn tell(rt: &HostRuntime) -> anyhow::Result<()> {
    let Ok(size) = GroupSize::new(METERS) else {
        rt.println("No group has so many meters.")?;
        return Ok(());
    };
    let mut table = [Proposal::FILLER; ROOM];
    let mut keeper = Patient::new(size, &mut table);
    let meters = keeper.size().meters();
    let room = keeper.capacity();
    println!(rt;
        "A group of {meters} meters opens. A patient keeper has room for {room} open proposals."
    )?;
    for event in &EVENTS {
        tell_event(rt, &mut keeper, event)?;
    }
    let open = keeper.open_count();
    println!(rt; "The morning ends with {open} open proposals.")?;
    Ok(())
}

/// Does what an event asks for, and tells what came of it. Nobody asks or prints in this telling.
fn tell_event<K: Keeper>(rt: &HostRuntime, keeper: &mut K, event: &Event) -> anyhow::Result<()> {
    let done = match event {
        Event::File { a, b, saving } => {
            println!(rt;
                "A scout files: meters {a} and {b} could share a time column, saving {saving} bytes a day."
            )?;
            file(keeper, *a, *b, *saving)
        }
        Event::Lapse { a, b } => {
            println!(rt; "A scout lapses the proposal for meters {a} and {b}.")?;
            lapse(keeper, *a, *b)
        }
        Event::Ask { .. } | Event::Print { .. } => return Ok(()),
    };
    tell_outcome(rt, done)?;
    tell_pairs(rt, keeper)
}

/// Opens a proposal, and answers its level.
fn file<K: Keeper>(keeper: &mut K, a: u32, b: u32, saving: u32) -> Result<u32, Refusal> {
    let proposal = Proposal::new(a, b, saving)?;
    keeper.put(proposal)?;
    Ok(proposal.level())
}

/// Closes a proposal, and answers its level.
fn lapse<K: Keeper>(keeper: &mut K, a: u32, b: u32) -> Result<u32, Refusal> {
    let pair = Pair::new(a, b)?;
    let saving = keeper.saving(pair).unwrap_or(0);
    keeper.take(pair)?;
    Ok(proposals::level(saving))
}

/// Tells whether a call was accepted, and if not, why.
fn tell_outcome(rt: &HostRuntime, done: Result<u32, Refusal>) -> anyhow::Result<()> {
    match done {
        Ok(level) => println!(rt; "  Accepted, at level {level}.")?,
        Err(refusal) => println!(rt; "  Refused with {refusal}.")?,
    }
    Ok(())
}

/// Tells which pairs static combining keeps now, and what they save together.
fn tell_pairs<R: Reader>(rt: &HostRuntime, reader: &R) -> anyhow::Result<()> {
    let mut row = [0; METERS as usize];
    let mut saved = 0u32;
    rt.print("  Kept:")?;
    if combine(reader, &mut row).is_ok() {
        for kept in (0..METERS).filter_map(|low| kept_at(reader, &row, low)) {
            let low = kept.low();
            let high = kept.high();
            let saving = kept.saving();
            print!(rt; " {low} with {high} ({saving}),")?;
            saved = saved.saturating_add(saving);
        }
    }
    println!(rt; " together {saved} bytes a day.")?;
    Ok(())
}
