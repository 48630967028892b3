use board::{Answer, Call};
use proposals::Refusal;
use story::Event;

/// Tells of a form that is no proposal or no pair.
pub fn tell_form(rt: &HostRuntime, event: &Event) -> anyhow::Result<()> {
    match event {
        Event::File { a, b, saving } => {
            println!(rt;
                "A scout fills in a form: meters {a} and {b}, saving {saving} bytes a day."
            )?;
        }
        Event::Lapse { a, b } => println!(rt; "A scout lapses meters {a} and {b}.")?,
        Event::Ask { meter } => println!(rt; "Somebody asks for meter {meter}.")?,
        Event::Print { places } => println!(rt; "Somebody prints {places} numbers.")?,
    }
    Ok(())
}

/// Tells what is asked of the board.
pub fn tell_call(rt: &HostRuntime, call: &Call) -> anyhow::Result<()> {
    match call {
        Call::Propose(proposal) => {
            let low = proposal.low();
            let high = proposal.high();
            let saving = proposal.saving();
            let level = proposal.level();
            println!(rt;
                "A scout proposes: meters {low} and {high} could share a time column, saving {saving} bytes a day (level {level})."
            )?;
        }
        Call::Withdraw(pair) => {
            let low = pair.low();
            let high = pair.high();
            println!(rt; "A scout withdraws the proposal for meters {low} and {high}.")?;
        }
        Call::Partner(meter) => println!(rt; "A crew asks which meter is paired with {meter}.")?,
        Call::Saved => rt.println("The planner asks what is saved.")?,
        Call::List(places) => println!(rt; "A clerk has the pairs listed in {places} numbers.")?,
    }
    Ok(())
}

/// Tells what a call answered.
pub fn tell_answer(rt: &HostRuntime, answer: &Result<Answer, Refusal>) -> anyhow::Result<()> {
    match answer {
        Ok(
            Answer::Counts {
                altered,
                came_or_went,
            },
        ) => println!(rt;
            "  Accepted. Kept pairs altered: {altered}. Chosen pairs that came or went: {came_or_went}."
        )?,
        Ok(Answer::Partner(Some((other, saving)))) => {
            println!(rt; "  It is paired with {other}, which saves {saving}.")?;
        }
        Ok(Answer::Partner(None)) => rt.println("  It is paired with none.")?,
        Ok(Answer::Saved(sum)) => println!(rt; "  Together they save {sum} bytes a day.")?,
        Ok(Answer::List { pairs, row: _ }) => println!(rt; "  Pairs written: {pairs}.")?,
        Err(refusal) => tell_refusal(rt, *refusal)?,
    }
    Ok(())
}

/// Tells why something was refused.
pub fn tell_refusal(rt: &HostRuntime, refusal: Refusal) -> anyhow::Result<()> {
    println!(rt; "  Refused with {refusal}.")?;
    Ok(())
}

/// Tells which pairs are kept, from a list of them.
pub fn tell_pairs(rt: &HostRuntime, list: &Result<Answer, Refusal>) -> anyhow::Result<()> {
    let Ok(Answer::List { pairs, row }) = list else {
        return Ok(());
    };
    rt.print("  Kept:")?;
    for pair in row.chunks(3).take(*pairs as usize) {
        if let [low, high, saving] = pair {
            print!(rt; " {low}-{high} ({saving})")?;
        }
    }
    rt.println(".")?;
    Ok(())
}
