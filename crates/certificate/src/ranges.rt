// Are the numbers of a tree in range?
// Each function bounds its own place by what it reads from there on.
ghost use Rattle.std.specs.Prelude.{◌≡◌, ◌+◌, ◌^◌, ◌<◌, length, position, pos, ◌≤ℤ◌};
ghost use Rattle.certificate.specs.Ahead.{numbers};
ghost use Rattle.certificate.specs.Held.{held};
ghost use Rattle.certificate.specs.RangeTests.{exists, far, up_to, near, record_tests, tests};
ghost use Rattle.certificate.specs.Trees.{Spells, Tree, leaf_record, split_record};
ghost use Rattle.certificate.specs.Verdicts.{range_answer};
ghost use Rattle.task.specs.Coefficients.{in_range};

use crate::faults::TreeFault;
use crate::reading::Record;
use crate::records::Records;
use crate::shapes::Shape;
use task::MAX_TURNS;

// The largest potential and multiplier, 2^26; the smallest is its negative.
const MAX_NUMBER: i32 = 67_108_864;

// What a tree is asked for: one of so many edges, and a D of at most `top`.
#[derive(Clone, Copy)]
pub(crate) struct Limits {
    pub(crate) edges: usize,
    pub(crate) top: i32,
    ghost few: { top ≤ℤ pos 1000 },
}

// Is there an edge of this number?
fn is_edge(edges: usize, e: i32) -> bool
    ensures { result ≡ exists edges e }
{
    usize::try_from(e).is_ok_and(|e| e < edges)
}

// Can a potential or a multiplier be this number?
fn is_near(z: i32) -> bool
    ensures { result ≡ in_range 67108864 z }
{
    (-MAX_NUMBER..=MAX_NUMBER).contains(&z)
}

// Can D be this number?
fn is_scale(top: i32, z: i32) -> bool
    ensures { result ≡ up_to top z }
{
    (0..=top).contains(&z)
}

// Can a split name this many turns?
fn is_most(z: i32) -> bool
    ensures { result ≡ up_to (pos 1048575) z }
{
    u32::try_from(z).is_ok_and(|most| most <= MAX_TURNS)
}

fn first_far(list: &[i32]) -> Option<usize>
    ensures { result ≡ position far list.now }
{
    list.iter().position(|z| !is_near(*z))
}

// Asks the potentials or the multipliers of a leaf, which stand from `place` on.
fn ask_numbers(list: &[i32], place: usize) -> Result<(), TreeFault>
    requires { place + length list.now < 2 ^ 63 }
    ensures { result ≡ range_answer place (near list.now) }
{
    match first_far(list) {
        Some(i) => Err(TreeFault::Range { place: place + i }),
        None => Ok(()),
    }
}

// Asks a leaf that begins at `place`; D is at most `top`.
fn ask_leaf(
    place: usize,
    top: i32,
    scale: i32,
    potentials: &[i32],
    multipliers: &[i32],
) -> Result<(), TreeFault>
    requires { place + (2 + (length potentials.now + length multipliers.now)) < 2 ^ 63 }
    ensures { result ≡ range_answer place (record_tests 0 top (leaf_record scale potentials.now multipliers.now)) }
{
    if !is_scale(top, scale) {
        return Err(TreeFault::Range { place: place + 1 });
    }
    ask_numbers(potentials, place + 2)?;
    ask_numbers(multipliers, place + 2 + potentials.len())
}

// Asks a split that begins at `place`.
fn ask_split(place: usize, edges: usize, edge: i32, most: i32) -> Result<(), TreeFault>
    requires { place + 3 < 2 ^ 63 }
    ensures { result ≡ range_answer place (record_tests edges (pos 0) (split_record edge most)) }
{
    if !is_edge(edges, edge) {
        return Err(TreeFault::Range { place: place + 1 });
    }
    if !is_most(most) {
        return Err(TreeFault::Range { place: place + 2 });
    }
    Ok(())
}

// Asks a record that begins at `place`.
fn ask_record(read: Record<'_>, place: usize, limits: Limits) -> Result<(), TreeFault>
    requires { place + length (numbers (held read)) < 2 ^ 63 }
    ensures { result ≡ range_answer place (record_tests limits.edges limits.top (held read.entry)) }
{
    match read {
        Record::Leaf {
            scale,
            potentials,
            multipliers,
        } => ask_leaf(place, limits.top, scale, potentials, multipliers),
        Record::Split { edge, most } => ask_split(place, limits.edges, edge, most),
    }
}

// Asks the records of a tree's list in their order.
pub(crate) fn ask_ranges(list: &[i32], limits: Limits, shape: Shape) -> Result<(), TreeFault>
    requires { (shape.splits ≡ 12) × ((t : Tree) × Spells shape.nodes shape.rows list.now t) }
    ensures { (t : Tree) → Spells shape.nodes shape.rows list.now t → result ≡ range_answer 0 (tests limits.edges limits.top t) }
{
    let mut records = Records::new(list, shape);
    while let Some((record, rest)) = records.front() {
        ask_record(record, records.place(), limits)?;
        records.pass(record, rest);
    }
    Ok(())
}
