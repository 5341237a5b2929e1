// Prices, and their multiples by the scale of a leaf.
ghost use Rattle.std.specs.Prelude.{◌≡◌, ◌+◌, ◌^◌, pos, ◌*ℤ◌};
ghost use Rattle.price.specs.Pairs.{times};
ghost use Rattle.price.specs.Ranges.{Part, Within};
ghost use Rattle.task.specs.Turns.{edge_price};

use crate::leaf::Leaf;
use price::Price;
use task::Edge;

// The price with these parts, which the caller knows to be in range. By `Price::new`, since a public function asks nothing of its caller.
pub(crate) fn price_of(cycles: i64, reads: i64) -> Price
    requires { (Part cycles) × (Part reads) }
    ensures { result ≡ (cycles, reads) }
{
    match Price::new(cycles, reads) {
        Ok(price) => price,
        Err(_) => unreachable(),
    }
}

impl Leaf<'_> {
    // A part of a price, times the scale.
    fn scaled(&self, part: i64) -> i64
        requires { Within (2 ^ 42 + 1000) part }
        ensures value { result ≡ pos self.now.scale *ℤ part }
        ensures small { Part result }
    {
        i64::from(self.scale) * part
    }

    // Both parts, times the scale.
    pub(crate) fn multiple(&self, cycles: i64, reads: i64) -> Price
        requires { (Within (2 ^ 42 + 1000) cycles) × (Within (2 ^ 42 + 1000) reads) }
        ensures { result ≡ times (pos self.now.scale) (cycles, reads) }
    {
        price_of(self.scaled(cycles), self.scaled(reads))
    }

    // The price of an edge that counts, times the scale.
    pub(crate) fn scaled_price(&self, edge: &Edge) -> Price
        ensures { result ≡ times (pos self.now.scale) (edge_price self.now.claim.sense edge.now) }
    {
        let price = edge.price(self.claim.sense);
        self.multiple(i64::from(price.cycles), i64::from(price.reads))
    }
}
