// Claims that no session of `maxt` can make: under a weight, and with a tree that is longer than a line.
use crate::deep::deep_tree;
use crate::refused::show_refused;
use anyhow::anyhow;
use console::session;
use history::{Answer, Call, perform, play};
use judge::{Case, Refusal};
use price::{CyclesFirst, Tariff, Weighted};
use std::alloc::Global;
use task::NewEdge;

// Prints what was answered to a claim.
fn tell(rt: &HostRuntime, name: &str, answer: Result<Answer, Refusal>) -> anyhow::Result<()> {
    print!(rt; "{name}: ")?;
    match answer {
        Ok(answer) => match answer {
            Answer::Price(price) => println!(rt;
                "certified at {} {}",
                price.cycles(),
                price.reads()
            )?,
            _ => println!(rt; "not a claim's answer")?,
        },
        Err(refusal) => show_refused(rt, refusal)?,
    }
    Ok(())
}

// The loop with a half-integral row, where only the retry costs anything.
const RETRY: &[u8] =
    b"edge 0 1 0 0 0\nedge 1 2 1 0 0\nedge 2 1 2 1 0\nedge 2 3 3 0 0\nrow 1 0 -3 0 2\nseal\n";

// A fresh case after these lines.
fn sealed(heap: Global, lines: &[u8]) -> anyhow::Result<Case> {
    let mut case = Case::new(heap)?;
    session(heap, &mut case, lines)?;
    Ok(case)
}

// A claim of (1, 0) under a tariff, backed by this tree.
fn claim<T: Tariff>(rt: &HostRuntime, name: &str, tariff: &T, tree: &[i32]) -> anyhow::Result<()> {
    let mut case = sealed(rt.alloc(), RETRY)?;
    let call = Call::Claim {
        turns: &[1, 2, 1, 1],
        tree,
    };
    tell(rt, name, perform(&mut case, tariff, &call))
}

// A leaf of scale 2 whose bound, the potential of the start, is this pair.
fn at_scale_two((cycles, reads): (i32, i32)) -> [i32; 12] {
    [0, 2, cycles, reads, 0, 0, 0, 0, 0, 0, 1, 0]
}

// The retry split at 1. In the second leaf, which is to show that twice is too often, the path row has this multiplier.
fn split_at_one(multiplier: i32) -> [i32; 31] {
    [
        1, 2, 1, 0, 1, 0, 0, 0, 0, 0, 0, 0, 0, 0, 0, 1, 0, 0, 0, 3, 0, 0, 0, 0, 0, 0, 0, 1, 0,
        multiplier, 0,
    ]
}

// The bound must be cheaper than 2 × ((1, 0) + unit), which weighs 4 under weight 2, and is (2, 2) cycles-first.
const BOUNDS: [(&str, (i32, i32)); 5] = [
    ("bound 3 0 under weight 2", (3, 0)),
    ("bound 1 1 under weight 2", (1, 1)),
    ("bound 4 0 under weight 2", (4, 0)),
    ("bound 2 1 under weight 2", (2, 1)),
    ("bound 2 0 under weight 2", (2, 0)),
];

pub(crate) fn show_scales(rt: &HostRuntime) -> anyhow::Result<()> {
    let weighted = Weighted::new(2).map_err(|_| anyhow!("no tariff has this weight"))?;
    for (name, bound) in BOUNDS {
        claim(rt, name, &weighted, &at_scale_two(bound))?;
    }
    claim(rt, "split at 1 under weight 2", &weighted, &split_at_one(2))?;
    claim(rt, "edge 2 allowed -1", &weighted, &split_at_one(3))?;
    claim(
        rt,
        "bound 3 0 cycles-first",
        &CyclesFirst,
        &at_scale_two((3, 0)),
    )
}

// A claim of one edge, backed by a tree of 4,096 leaves: the last of a list of calls.
pub(crate) fn claim_deep(rt: &HostRuntime) -> anyhow::Result<()> {
    let heap = rt.alloc();
    let tree = deep_tree(heap)?;
    let edge = Call::Edge(NewEdge {
        tail: 0,
        head: 1,
        block: 0,
        cycles: 20,
        reads: 1,
    });
    let claim = Call::Claim {
        turns: &[1],
        tree: &tree,
    };
    println!(rt; "numbers in the tree: {}", tree.len())?;
    let answers = play(heap, &CyclesFirst, &[edge, Call::Seal, claim])?;
    let Some(answer) = answers.last() else {
        return Err(anyhow!("no call was answered"));
    };
    tell(rt, "4096 leaves under 12 splits", *answer)
}
