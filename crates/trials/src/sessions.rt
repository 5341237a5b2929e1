// The stored sessions, each on a fresh case.
use console::session;
use judge::Case;
use std::fs;
use std::io::Write;

// First both sides of every limit and question, then worked cases, then the sessions of examples/.
const SESSIONS: [&str; 36] = [
    "edges.txt",
    "rows.txt",
    "ends.txt",
    "stages-certified.txt",
    "stages-void.txt",
    "turns.txt",
    "turns-end-lowest.txt",
    "stranded.txt",
    "sums.txt",
    "shapes.txt",
    "ranges.txt",
    "signs.txt",
    "allowances.txt",
    "bounds.txt",
    "bounds-void.txt",
    "lines.txt",
    "wrong-bytes.txt",
    "long-lines.txt",
    "retry-loop-claims.txt",
    "exit-set-aside.txt",
    "half-integral-row.txt",
    "balanced-but-no-run.txt",
    "no-run.txt",
    "below-and-equal.txt",
    "retry-loop.txt",
    "matmult.txt",
    "bsort.txt",
    "heapsort.txt",
    "bs.txt",
    "state-machine.txt",
    "exclusive-arms.txt",
    "correlated-branches.txt",
    "copied-block.txt",
    "copied-block-apart.txt",
    "duff.txt",
    "odd-buffer.txt",
];

// Prints the replies of a session.
fn show(rt: &HostRuntime, file: &str) -> anyhow::Result<()> {
    let heap = rt.alloc();
    let text = fs::read(rt, file)?;
    let mut case = Case::new(heap)?;
    let replies = session(heap, &mut case, &text)?;
    println!(rt; "{file}")?;
    rt.stdout().write_all(&replies)?;
    Ok(())
}

pub(crate) fn show_all(rt: &HostRuntime) -> anyhow::Result<()> {
    for file in SESSIONS {
        show(rt, file)?;
    }
    Ok(())
}
