// The distance of every node to the end, and its last exit.
ghost use Rattle.std.specs.Prelude.{◌≡◌, ℕ, ◌^◌, ◌<◌, length, slice_index};
ghost use Rattle.task.specs.Graph.{head_of};
ghost use Rattle.walk.specs.Tables.{DistancesTabled, nearer_by, DistancePass, ExitsTabled, exit_table};

use task::{Flow, NODES, Node};

// A table by nodes: how many edges with turns a way to the end takes.
#[derive(Drop)]
struct Distances {
    far: [usize; NODES],
    ghost small: { (v : ℕ) → v < 32 → slice_index far v < 2 ^ 63 },
}

impl Distances {
    // The distance of every node. Each round is one pass over the edges, and the last one changes nothing.
    fn to_end(flow: Flow<'_>, end: Node) -> Distances
        ensures { DistancesTabled flow.entry.edges.now flow.entry.turns.now end result.far }
    {
        let mut far = [flow.edges.len() + 2; NODES];
        far[end.index()] = 0;
        let mut table = Distances { far };
        while !table.shorten(flow) {}
        table
    }

    // One pass over the edges: lowers the entry of each node from which an edge with turns leads to a lower one, and tells whether there was none.
    // It goes from the last edge to the first: most edges lead to a node that later edges leave, so that few passes are needed.
    fn shorten(&mut self, flow: Flow<'_>) -> bool
        ensures { DistancePass flow.entry.edges.now flow.entry.turns.now self.old.far self.new.far result 0 }
    {
        let mut settled = true;
        for x in (0..flow.edges.len()).rev() {
            let edge = &flow.edges[x];
            let from = edge.tail.index();
            let to = edge.head.index();
            if flow.turns_of(x) > 0 && self.far[to] + 1 < self.far[from] {
                self.far[from] = self.far[to] + 1;
                settled = false;
            }
        }
        settled
    }

    // Whether edge `x` has turns and leads to a node that is one nearer.
    fn leads_nearer(&self, flow: Flow<'_>, x: usize) -> bool
        requires { x < length flow.edges.now }
        ensures answer { result ≡ nearer_by flow.entry.edges.now flow.entry.turns.now self.now.far x }
        ensures low { head_of flow.entry.edges.now x < 32 }
    {
        let edge = &flow.edges[x];
        let from = edge.tail.index();
        let to = edge.head.index();
        flow.turns_of(x) > 0 && self.far[to] + 1 == self.far[from]
    }
}

/// The last exit of every node: the lowest edge with turns that leads to a node one nearer to the end, or the number of edges, which the rule of step takes as it stands.
pub fn last_exits(flow: Flow<'_>, end: Node) -> [usize; NODES]
    ensures table { result ≡ exit_table flow.entry.edges.now flow.entry.turns.now end }
    ensures exits { ExitsTabled flow.entry.edges.now flow.entry.turns.now end result }
{
    let table = Distances::to_end(flow, end);
    let mut exits = [flow.edges.len(); NODES];
    // from the last edge to the first, so that the lowest one stays
    for x in (0..flow.edges.len()).rev() {
        if table.leads_nearer(flow, x) {
            exits[flow.edges[x].tail.index()] = x;
        }
    }
    exits
}
