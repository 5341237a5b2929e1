// A list of calls that is longer than any session.
use history::{Answer, Call, play};
use judge::Report;
use price::CyclesFirst;

const CALLS: usize = 250_000;

// Prints how many calls were answered, and how many told of a draft.
pub(crate) fn play_long(rt: &HostRuntime) -> anyhow::Result<()> {
    let heap = rt.alloc();
    let mut calls = Vec::new(heap);
    for _ in 0..CALLS {
        calls.push(Call::Told)?;
    }
    let answers = play(heap, &CyclesFirst, &calls)?;
    let drafts = answers
        .iter()
        .filter(|answer| **answer == Ok(Answer::Told(Report::Draft)))
        .count();
    println!(rt; "calls answered: {}, drafts told: {drafts}", answers.len())?;
    Ok(())
}
