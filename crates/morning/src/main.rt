//! Works through a morning of one group of meters over a board, and tells what happens in a planner's words.
#![tactic(auto)]

mod telling;

use board::{Answer, Call, PLACES, replay};
use keepers::{Patient, Reader};
use proposals::{GroupSize, Pair, Proposal, Refusal};
use std::alloc::Global;
use story::{EVENTS, Event, METERS, ROOM};
use telling::{tell_answer, tell_call, tell_form, tell_pairs, tell_refusal};

fn main(rt: HostRuntime) -> anyhow::Result<()> {
    tell(&rt)
}

/// Opens the group and tells its whole story.
fn tell(rt: &HostRuntime) -> anyhow::Result<()> {
    let Ok(size) = GroupSize::new(METERS) else {
        rt.println("No group has so many meters.")?;
        return Ok(());
    };
    let mut table = [Proposal::FILLER; ROOM];
    let keeper = Patient::new(size, &mut table);
    let meters = keeper.size().meters();
    let room = keeper.capacity();
    println!(rt;
        "A group of {meters} meters. A patient keeper has room for {room} open proposals."
    )?;
    let filed = look_through(rt)?;
    let calls = with_questions(rt.alloc(), &filed)?;
    let mut answers = vec![in rt.alloc(); Ok(Answer::Saved(0)); calls.len()]?;
    rt.println("The board opens over the keeper.")?;
    let board = replay(keeper, &calls, &mut answers);
    for (call, told) in filed.iter().zip(answers.chunks(3)) {
        tell_call(rt, call)?;
        tell_told(rt, told)?;
    }
    let keeper = board.close();
    let open = keeper.open_count();
    println!(rt; "The board closes. Its keeper has {open} open proposals.")?;
    Ok(())
}

/// Looks through what comes in, tells which forms are no proposals, and answers the calls that the others ask for.
fn look_through(rt: &HostRuntime) -> anyhow::Result<Vec<Call>> {
    let mut filed = Vec::new(rt.alloc());
    for event in &EVENTS {
        match call_of(event) {
            Ok(call) => filed.push(call)?,
            Err(refusal) => {
                tell_form(rt, event)?;
                tell_refusal(rt, refusal)?;
            }
        }
    }
    Ok(filed)
}

/// The call on the board that an event asks for; refused where a form is no proposal or no pair.
fn call_of(event: &Event) -> Result<Call, Refusal> {
    Ok(match event {
        Event::File { a, b, saving } => Call::Propose(Proposal::new(*a, *b, *saving)?),
        Event::Lapse { a, b } => Call::Withdraw(Pair::new(*a, *b)?),
        Event::Ask { meter } => Call::Partner(*meter),
        Event::Print { places } => Call::List(*places),
    })
}

/// After each call the rollup job asks for the list, and the planner for the sum.
fn with_questions(heap: Global, filed: &[Call]) -> anyhow::Result<Vec<Call>> {
    let mut calls = Vec::new(heap);
    for call in filed {
        calls.push(*call)?;
        calls.push(Call::List(PLACES as u32))?;
        calls.push(Call::Saved)?;
    }
    Ok(calls)
}

/// Tells what a call answered, which pairs are kept then, and what they save.
fn tell_told(rt: &HostRuntime, told: &[Result<Answer, Refusal>]) -> anyhow::Result<()> {
    if let [answer, list, sum] = told {
        tell_answer(rt, answer)?;
        tell_pairs(rt, list)?;
        tell_answer(rt, sum)?;
    }
    Ok(())
}
