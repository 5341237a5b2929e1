// How a trial prints a refusal.
use judge::Refusal;

// Ends a line with the question that was failed, and its places.
pub(crate) fn show_refused(rt: &HostRuntime, refusal: Refusal) -> anyhow::Result<()> {
    let (question, first, second) = refusal.numbers();
    println!(rt; "refused, {question} {first} {second}")?;
    Ok(())
}
