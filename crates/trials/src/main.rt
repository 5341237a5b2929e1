// Runs the stored sessions and the trials that no session of `maxt` can have, and prints what was answered.
#![tactic(auto)]

mod claims;
mod deep;
mod laws;
mod lists;
mod prices;
mod refused;
mod rooms;
mod sessions;

fn main(rt: HostRuntime) -> anyhow::Result<()> {
    sessions::show_all(&rt)?;
    prices::show_parts(&rt)?;
    prices::show_weights(&rt)?;
    rooms::show_rooms(&rt)?;
    claims::show_scales(&rt)?;
    claims::claim_deep(&rt)?;
    lists::play_long(&rt)
}
