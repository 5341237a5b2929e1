// Cycles first, then reads on equal cycles.
ghost use Rattle.price.specs.Tariffs.{by_cycles, one_read};
ghost use Rattle.price.specs.CyclesLaws.{cycles_laws};

use crate::prices::Price;
use crate::tariffs::Tariff;

#[derive(Clone, Copy, Debug, PartialEq, Eq)]
pub struct CyclesFirst;

impl Tariff for CyclesFirst {
    ghost le = { λ _. by_cycles };

    ghost unit = { λ _. one_read };

    ghost laws = { λ t. cycles_laws };

    fn compare(&self, a: Price, b: Price) -> bool {
        (a.cycles(), a.reads()) <= (b.cycles(), b.reads())
    }

    fn unit(&self) -> Price {
        Price::of(0, 1)
    }
}
