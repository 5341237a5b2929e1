// Cycles, with each read counted as a fixed number of them.
ghost use Rattle.std.specs.Prelude.{◌≡◌, ◌^◌, ◌<◌, ◌≤◌, pos, ◌*ℤ◌, MatchResult};
ghost use Rattle.price.specs.Ranges.{Within};
ghost use Rattle.price.specs.Tariffs.{by_weight, one_cycle, weighed};
ghost use Rattle.price.specs.WeightLaws.{weight_laws};

use crate::out_of_range::OutOfRange;
use crate::prices::Price;
use crate::tariffs::Tariff;

const MAX_WEIGHT: u32 = 255;

/// Compares cycles + weight × reads.
#[derive(Clone, Copy, Debug, PartialEq, Eq)]
pub struct Weighted {
    weight: u32,
    ghost weight_fits: { weight ≤ 255 },
}

impl Weighted {
    /// The tariff of this weight, refused above 255.
    pub fn new(weight: u32) -> Result<Weighted, OutOfRange>
        ensures { MatchResult result (λ t. t.weight ≡ weight) (λ e. (e ≡ OutOfRange.Weight) × (255 < weight)) }
    {
        if weight <= MAX_WEIGHT {
            Ok(Weighted { weight })
        } else {
            Err(OutOfRange::Weight)
        }
    }

    // The reads, weighed, which stay far inside the type.
    fn weigh_reads(self, p: Price) -> i64
        ensures value { result ≡ pos self.weight *ℤ p.1 }
        ensures small { Within (2 ^ 60) result }
    {
        i64::from(self.weight) * p.reads()
    }

    /// What the tariff compares: cycles + weight × reads.
    pub fn weigh(self, p: Price) -> i64
        ensures { result ≡ weighed self.weight p }
    {
        p.cycles() + self.weigh_reads(p)
    }
}

impl Tariff for Weighted {
    ghost le = { λ t. by_weight t.weight };

    ghost unit = { λ _. one_cycle };

    ghost laws = { λ t. weight_laws t.weight };

    fn compare(&self, a: Price, b: Price) -> bool {
        self.weigh(a) <= self.weigh(b)
    }

    fn unit(&self) -> Price {
        Price::of(1, 0)
    }
}
