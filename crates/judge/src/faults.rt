// The faults of the crates below, as refusals of a call.
ghost use Rattle.std.specs.Prelude.{◌≡◌};
ghost use Rattle.judge.specs.declared.refusals.Refusal.TheVariants.{Edge, Graph, OutOfRange as RangeFault, Row, Tree, Turns};

use crate::refusals::Refusal;
use certificate::TreeFault;
use price::OutOfRange;
use task::{EdgeFault, GraphFault, RowFault, TurnsFault};

impl From<EdgeFault> for Refusal {
    ghost from_gives = { λ fault refusal. refusal ≡ Edge fault };

    fn from(fault: EdgeFault) -> Refusal {
        Refusal::Edge(fault)
    }
}

impl From<RowFault> for Refusal {
    ghost from_gives = { λ fault refusal. refusal ≡ Row fault };

    fn from(fault: RowFault) -> Refusal {
        Refusal::Row(fault)
    }
}

impl From<GraphFault> for Refusal {
    ghost from_gives = { λ fault refusal. refusal ≡ Graph fault };

    fn from(fault: GraphFault) -> Refusal {
        Refusal::Graph(fault)
    }
}

impl From<TurnsFault> for Refusal {
    ghost from_gives = { λ fault refusal. refusal ≡ Turns fault };

    fn from(fault: TurnsFault) -> Refusal {
        Refusal::Turns(fault)
    }
}

impl From<TreeFault> for Refusal {
    ghost from_gives = { λ fault refusal. refusal ≡ Tree fault };

    fn from(fault: TreeFault) -> Refusal {
        Refusal::Tree(fault)
    }
}

impl From<OutOfRange> for Refusal {
    ghost from_gives = { λ fault refusal. refusal ≡ RangeFault fault };

    fn from(fault: OutOfRange) -> Refusal {
        Refusal::OutOfRange(fault)
    }
}
