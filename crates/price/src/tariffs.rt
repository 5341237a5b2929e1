// What makes one price dearer than another.
ghost use Rattle.std.specs.Prelude.{◌≡◌, Bool};
ghost use Rattle.price.specs.Follows.{Follows};
ghost use Rattle.price.specs.Laws.{Laws};
ghost use Rattle.price.specs.Pairs.{Pair};

use crate::prices::Price;

/// An order of prices: a total preorder on pairs of whole numbers that sums respect, with a least step.
/// Whoever adds one shows the laws over all pairs; nothing else of a tariff is ever used.
pub trait Tariff {
    // `le t a b`: under t, a is no dearer than b
    ghost le: { Self → Pair → Pair → Bool };

    // the least step: b + unit is dearer than whatever is no dearer than b
    ghost unit: { Self → Pair };

    /// Whether `a` is no dearer than `b`.
    fn compare(&self, a: Price, b: Price) -> bool
        ensures { result ≡ le self.now a b };

    fn unit(&self) -> Price
        ensures { result ≡ unit self.now };

    ghost laws: { (t : Self) → Laws (le t) (unit t) };
}

/// The theorem that the laws suffice: whatever the judge uses of a tariff follows from them alone.
pub fn laws_suffice<T: Tariff>(tariff: &T)
    ensures { Follows (T.le tariff.now) (T.unit tariff.now) }
{}
