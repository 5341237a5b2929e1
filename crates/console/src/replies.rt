// The reply of one line.
ghost use Rattle.std.specs.Prelude.{◌≡◌, ◌<◌, ◌≤◌, [], ◌∷◌, length, take, IfOk, Ok, Err};
ghost use Rattle.console.specs.Histories.{KeepsOn};
ghost use Rattle.console.specs.Judging.{LineJudged, Replied};
ghost use Rattle.history.specs.Answers.{said};

use crate::answers::{MAX_REPLY, Reply};
use grammar::{Tables, read};
use history::{Answer, perform};
use judge::{Case, Refusal};
use price::CyclesFirst;

// Has the case do what the line asks.
pub(crate) fn judge_line(
    text: &[u8],
    case: &mut Case,
    tables: &mut Tables,
) -> Result<Answer, Refusal>
    ensures { LineJudged case.old text.now (said result) case.new }
{
    match read(text, tables) {
        Some(call) => perform(case, &CyclesFirst, &call),
        None => Err(Refusal::LineForm),
    }
}

/// Has the case do what the line asks, judged cycles first, writes the reply at the front of the buffer, which is the caller's, and answers its length:
/// with all calls before, that of the line and its answer keep the rules. A buffer shorter than 64 bytes is refused before all else.
#[tactic(auto, using(crate::proofs::RulesKept::line_keeps))]
pub fn line(text: &[u8], case: &mut Case, reply: &mut [u8]) -> Result<usize, Refusal>
    ensures refused { length reply.old < 64 → (result ≡ Err Refusal.ReplyRoom) × (reply.new ≡ reply.old) × (case.new ≡ case.old) }
    ensures replied { 64 ≤ length reply.old → Replied case.old text.now case.new reply.old reply.new result }
    ensures rules { IfOk result (λ n. KeepsOn case.old (text.now ∷ []) (take n reply.new) case.new) }
{
    if reply.len() < MAX_REPLY {
        return Err(Refusal::ReplyRoom);
    }
    let mut told = Reply::new();
    told.tell(judge_line(text, case, &mut Tables::new()));
    let bytes = told.as_bytes();
    reply[..bytes.len()].copy_from_slice(bytes);
    Ok(bytes.len())
}
