// One line of the console with reply buffers of several lengths, all on one case.
use crate::refused::show_refused;
use console::line;
use judge::Case;
use std::io::Write;

// Prints what the line was answered, and the whole buffer after it.
fn show_line(
    rt: &HostRuntime,
    case: &mut Case,
    text: &[u8],
    reply: &mut [u8],
) -> anyhow::Result<()> {
    let room = reply.len();
    print!(rt; "room for {room} bytes: ")?;
    match line(text, case, reply) {
        Ok(length) => println!(rt; "{length} written")?,
        Err(refusal) => show_refused(rt, refusal)?,
    }
    rt.stdout().write_all(reply)?;
    println!(rt; "")?;
    Ok(())
}

// A buffer is full of dots before its line: those that are left were not touched.
pub(crate) fn show_rooms(rt: &HostRuntime) -> anyhow::Result<()> {
    let mut case = Case::new(rt.alloc())?;
    show_line(rt, &mut case, b"edge 0 1 0 20 1", &mut [])?;
    show_line(rt, &mut case, b"edge 0 1 0 20 1", &mut [b'.'; 63])?;
    show_line(rt, &mut case, b"no line", &mut [b'.'; 63])?;
    show_line(rt, &mut case, b"edge 0 1 0 20 1", &mut [b'.'; 64])?;
    show_line(rt, &mut case, b"edge 0 1 0 20 1", &mut [b'.'; 63])?;
    show_line(rt, &mut case, b"edge 0 1 0 20 1", &mut [b'.'; 64])?;
    show_line(rt, &mut case, b"no line", &mut [b'.'; 65])?;
    show_line(rt, &mut case, b"told", &mut [b'.'; 80])
}
