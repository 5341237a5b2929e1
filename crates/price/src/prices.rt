// The price record.
ghost use Rattle.std.specs.Prelude.{◌≡◌, ◌↔◌, IsTrue, IfOk, MatchResult};
ghost use Rattle.price.specs.Ranges.{Part};

use crate::out_of_range::OutOfRange;
use std::marker::Model;

// The largest part of a price, 2^52; the smallest is its negative.
const MAX_PART: i64 = 4_503_599_627_370_496;

/// Cycles and reads of the shared bus, each from -2^52 to 2^52, ends included.
#[derive(Clone, Copy, Debug, PartialEq, Eq)]
pub struct Price {
    cycles: i64,
    reads: i64,
}

impl Model for Price {
    ghost use Rattle.price.specs.Pairs.{Pair};
    ghost use Rattle.price.specs.Ranges.{Part};

    ghost Value = { Pair };

    ghost view = { λ p. (p.cycles, p.reads) };

    ghost invariant = { λ p. (Part p.cycles) × (Part p.reads) };

    ghost inverse = { λ a. record { cycles = a.0; reads = a.1 } };
}

fn is_part(z: i64) -> bool
    ensures { IsTrue result ↔ Part z }
{
    (-MAX_PART..=MAX_PART).contains(&z)
}

impl Price {
    /// The price with these parts, refused where one of them is out of range.
    pub fn new(cycles: i64, reads: i64) -> Result<Price, OutOfRange>
        ensures price { MatchResult result (λ p. p ≡ (cycles, reads)) (λ e. (e ≡ OutOfRange.Price) × (Part cycles → Part reads → ⊥)) }
        ensures in_range { IfOk result (λ _. (Part cycles) × (Part reads)) }
    {
        if is_part(cycles) && is_part(reads) {
            Ok(Price { cycles, reads })
        } else {
            Err(OutOfRange::Price)
        }
    }

    // The price with these parts, which the caller knows to be in range.
    pub(crate) fn of(cycles: i64, reads: i64) -> Price
        requires { (Part cycles) × (Part reads) }
        ensures { result ≡ (cycles, reads) }
    {
        Price { cycles, reads }
    }

    pub fn cycles(self) -> i64
        ensures value { result ≡ self.0 }
        ensures part { Part result }
    {
        self.cycles
    }

    pub fn reads(self) -> i64
        ensures value { result ≡ self.1 }
        ensures part { Part result }
    {
        self.reads
    }
}
