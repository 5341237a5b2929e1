// A text of many lines.
ghost use Rattle.std.specs.Prelude.{◌≡◌, ◌≢◌, ℕ, List, [], ◌∷◌, ◌++◌, IfOk, MatchResult};
ghost use Rattle.console.specs.Histories.{KeepsOn};
ghost use Rattle.console.specs.Judging.{Pushed, Replies, Stopped};
ghost use Rattle.console.specs.Lines.{lines};

use crate::answers::Reply;
use crate::replies::judge_line;
use grammar::Tables;
use judge::Case;
use std::alloc::{AllocError, Global};

// A line without the feed at its end; the last line of a text may have none.
fn without_feed(line: &[u8]) -> &[u8]
    ensures fed { (front : List ℕ) → line.now ≡ front ++ (10 ∷ []) → result.now ≡ front }
    ensures unfed { ((front : List ℕ) → line.now ≢ front ++ (10 ∷ [])) → result.now ≡ line.now }
{
    line.strip_suffix(b"\n").unwrap_or(line)
}

// Has the case do what the line asks, and adds the reply.
fn push_reply(
    replies: &mut Vec<u8>,
    text: &[u8],
    case: &mut Case,
    tables: &mut Tables,
) -> Result<(), AllocError>
    ensures { Pushed case.old text.now case.new replies.old.items replies.new.items result }
{
    let mut reply = Reply::new();
    reply.tell(judge_line(text, case, tables));
    replies.extend_from_slice(reply.as_bytes())
}

/// Has the case do what each line of the text asks, judged cycles first, and answers the replies, one after the other:
/// with all calls before, those of the lines and their answers keep the rules. Without memory for a reply it stops after that line.
pub fn session(heap: Global, case: &mut Case, text: &[u8]) -> Result<Vec<u8>, AllocError>
    ensures replies { MatchResult result (λ v. Replies case.old (lines text.now) v.items case.new) (λ _. Stopped case.old (lines text.now) case.new) }
    ensures rules { IfOk result (λ v. KeepsOn case.old (lines text.now) v.items case.new) }
{
    let mut replies = Vec::new(heap);
    let mut tables = Tables::new();
    for line in text.split_inclusive(|byte| *byte == b'\n') {
        push_reply(&mut replies, without_feed(line), case, &mut tables)?;
    }
    Ok(replies)
}
