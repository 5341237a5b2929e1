// What turns cost.
ghost use Rattle.std.specs.Prelude.{◌≡◌, ◌*◌, ◌^◌, ◌≤◌, length, pos};
ghost use Rattle.task.specs.Pricing.{Priced, Small};
ghost use Rattle.task.specs.Sound.{AllInRange};
ghost use Rattle.task.specs.Turns.{price_of};

use crate::edges::Cost;
use crate::tasks::Flow;
use price::{OutOfRange, Price, Sense};

// One part of an edge's price times its turns, with the bound that the sum needs.
fn times(part: u16, turns: u32) -> u128
    ensures value { result ≡ turns * part }
    ensures small { result ≤ turns * 2 ^ 16 }
{
    u128::from(turns) * u128::from(part)
}

impl Cost {
    // The cycles and the reads of so many turns.
    fn of(self, turns: u32) -> (u128, u128)
        ensures value { (result.0 ≡ turns * self.cycles) × (result.1 ≡ turns * self.reads) }
        ensures small { (result.0 ≤ turns * 2 ^ 16) × (result.1 ≤ turns * 2 ^ 16) }
    {
        (times(self.cycles, turns), times(self.reads, turns))
    }
}

// The price with these parts, refused where one is out of range.
fn priced(cycles: u128, reads: u128) -> Result<Price, OutOfRange>
    ensures { Priced (pos cycles, pos reads) result }
{
    match (i64::try_from(cycles), i64::try_from(reads)) {
        (Ok(cycles), Ok(reads)) => Price::new(cycles, reads),
        _ => Err(OutOfRange::Price),
    }
}

impl Flow<'_> {
    /// The price of the turns in this sense: every edge's price times its turns, added up. Where one list is shorter, the rest of the other does not count.
    pub fn price(self, sense: Sense) -> Result<Price, OutOfRange>
        ensures price { Priced (price_of sense self.entry.edges.now self.entry.turns.now) result }
        ensures small { length self.entry.edges.now ≤ 64 → AllInRange self.entry.edges.now self.entry.turns.now → Small result }
    {
        let mut cycles: u128 = 0;
        let mut reads: u128 = 0;
        // by index over the turns, both parts at once: docs/DECISIONS.md, language forms
        for x in 0..self.edges.len().min(self.turns.len()) {
            let (more_cycles, more_reads) = self.edges[x].price(sense).of(self.turns[x]);
            cycles += more_cycles;
            reads += more_reads;
        }
        priced(cycles, reads)
    }
}
