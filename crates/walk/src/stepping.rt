// The rule of step.
ghost use Rattle.std.specs.Prelude.{◌≡◌, ℕ, ◌<◌, List, length, slice_index};
ghost use Rattle.task.specs.Lowest.{first};
ghost use Rattle.walk.specs.Rule.{next, spares, taken};
ghost use Rattle.walk.specs.WalkAt.{StepsOn};
ghost use Rattle.walk.specs.Tables.{ExitsTabled};

use task::{Flow, NODES, Node};

// Whether edge `x` leaves the node and has turns left, one turn of the last exit set aside.
fn has_spare(left: Flow<'_>, at: Node, last: usize, x: usize) -> bool
    requires { x < length left.edges.now }
    ensures { result ≡ spares left.entry.edges.now left.entry.turns.now at last x }
{
    left.edges[x].tail == at && left.turns_of(x) > u32::from(x == last)
}

// The lowest such edge.
fn first_spare(left: Flow<'_>, at: Node, last: usize) -> Option<usize>
    ensures { result ≡ first (spares left.entry.edges.now left.entry.turns.now at last) (length left.entry.edges.now) }
{
    (0..left.edges.len()).find(|x| has_spare(left, at, last, *x))
}

// That edge; if there is none, the last exit by the table. None at the end.
fn by_table(left: Flow<'_>, exits: &[usize; NODES], at: Node, end: Node) -> Option<usize>
    ensures answer { result ≡ taken left.entry.edges.now left.entry.turns.now at end (slice_index exits.now at) }
    ensures rule { (claimed : List ℕ) → ExitsTabled left.entry.edges.now claimed end exits.now → result ≡ next left.entry.edges.now claimed end left.entry.turns.now at }
{
    if at == end {
        return None;
    }
    let last = exits[at.index()];
    Some(first_spare(left, at, last).unwrap_or(last))
}

/// The edge that the rule takes at a node, by the table of last exits and the turns left; none at the end.
pub fn next_edge(left: Flow<'_>, exits: &[usize; NODES], at: Node, end: Node) -> Option<usize>
    ensures answer { result ≡ taken left.entry.edges.now left.entry.turns.now at end (slice_index exits.now at) }
    ensures rule { (claimed : List ℕ) → ExitsTabled left.entry.edges.now claimed end exits.now → result ≡ next left.entry.edges.now claimed end left.entry.turns.now at }
    ensures stands { StepsOn left.entry.edges.now exits.now end left.entry.turns.now at result }
{
    by_table(left, exits, at, end)
}
