// The reply that tells an answer.
ghost use Rattle.std.specs.Prelude.{Ok, Err, ◌≡◌, ◌+◌, ◌≤◌, ◌∷◌, [], ◌++◌, length};
ghost use Rattle.console.specs.Rendering.{rendered};
ghost use Rattle.grammar.specs.Spelling.{integers};
ghost use Rattle.history.specs.Answers.{said, told};
ghost use Rattle.judge.specs.Reports.{shown};
ghost use Rattle.price.specs.Ranges.{Part};
ghost use Rattle.std.specs.Fmt.{signed_decimal};

use arrayvec::ArrayString;
use history::Answer;
use itoa::{Buffer, Integer};
use judge::{Proof, Refusal, Report};
use price::{Price, Sense};

/// No reply is longer.
pub(crate) const MAX_REPLY: usize = 64;

/// A reply: a word, and each number after one blank.
#[derive(Drop)]
pub(crate) struct Reply {
    text: ArrayString<MAX_REPLY>,
}

impl Reply {
    pub(crate) fn new() -> Reply
        ensures { result.text.bytes ≡ [] }
    {
        Reply {
            text: ArrayString::new(),
        }
    }

    // A word, or a text that begins a reply.
    fn word(&mut self, word: &str)
        requires { (self.old.text.bytes ≡ []) × (length word.now ≤ 12) }
        ensures { self.new.text.bytes ≡ word.now }
    {
        self.text.push_str(word);
    }

    // A number more.
    fn number<I: Integer>(&mut self, number: I)
        requires { length self.old.text.bytes + (1 + I.MAX_STR_LEN) ≤ 64 }
        ensures text { self.new.text.bytes ≡ self.old.text.bytes ++ (32 ∷ I.text number) }
        ensures short { length self.new.text.bytes ≤ length self.old.text.bytes + (1 + I.MAX_STR_LEN) }
    {
        self.text.push(' ');
        self.text.push_str(Buffer::new().format(number));
    }

    // A part of a price more: at most 18 bytes, where any `i64` may take 21.
    fn part(&mut self, part: i64)
        requires { (length self.old.text.bytes + 21 ≤ 64) × Part part }
        ensures text { self.new.text.bytes ≡ self.old.text.bytes ++ (32 ∷ signed_decimal part) }
        ensures short { length self.new.text.bytes ≤ length self.old.text.bytes + 18 }
    {
        self.number(part);
    }

    // The cycles and the reads of a price more.
    fn price(&mut self, price: Price)
        requires { length self.old.text.bytes + 39 ≤ 64 }
        ensures text { self.new.text.bytes ≡ self.old.text.bytes ++ integers (price.0 ∷ price.1 ∷ []) }
        ensures short { length self.new.text.bytes ≤ length self.old.text.bytes + 36 }
    {
        self.part(price.cycles());
        self.part(price.reads());
    }

    // The line feed at its end.
    fn end(&mut self)
        requires { length self.old.text.bytes + 1 ≤ 64 }
        ensures { self.new.text.bytes ≡ self.old.text.bytes ++ (10 ∷ []) }
    {
        self.text.push('\n');
    }

    // The stage of a case, its price and its counts; only a claim that stands has any. The feed is yet to come.
    #[tactic(auto, using(crate::proofs::ReportReplies::idle_told, crate::proofs::ReportReplies::standing_told))]
    fn report(&mut self, report: Report)
        requires { self.old.text.bytes ≡ [] }
        ensures text { self.new.text.bytes ++ (10 ∷ []) ≡ rendered (told (shown report)) }
        ensures short { length self.new.text.bytes ≤ 63 }
    {
        match report {
            Report::Draft => self.word("ok 0 0 0 0 0"),
            Report::Sealed => self.word("ok 1 0 0 0 0"),
            Report::Standing {
                sense: Sense::Longest,
                proof: Proof::Certified,
                price,
                steps,
                left,
            } => {
                self.word("ok 2");
                self.price(price);
                self.number(steps);
                self.number(left);
            }
            Report::Void => self.word("ok 3 0 0 0 0"),
        }
    }

    // What tells an answer. The feed is yet to come.
    fn answer(&mut self, answer: Answer)
        requires { self.old.text.bytes ≡ [] }
        ensures text { self.new.text.bytes ++ (10 ∷ []) ≡ rendered (said (Ok answer)) }
        ensures short { length self.new.text.bytes ≤ 63 }
    {
        match answer {
            Answer::Number(n) => {
                self.word("ok");
                self.number(n);
            }
            Answer::Ends(start, end) => {
                self.word("ok");
                self.number(start.index());
                self.number(end.index());
            }
            Answer::Price(price) => {
                self.word("ok");
                self.price(price);
            }
            Answer::Next(edge) => {
                self.word("ok");
                self.number(edge);
            }
            Answer::Done => self.word("ok done"),
            Answer::Agreed => self.word("ok"),
            Answer::Told(report) => self.report(report),
        }
    }

    // What tells a refusal. The feed is yet to come.
    fn refusal(&mut self, refusal: Refusal)
        requires { self.old.text.bytes ≡ [] }
        ensures text { self.new.text.bytes ++ (10 ∷ []) ≡ rendered (said (Err refusal)) }
        ensures short { length self.new.text.bytes ≤ 63 }
    {
        let (question, first, second) = refusal.numbers();
        self.word("no");
        self.number(question);
        self.number(first);
        self.number(second);
    }

    /// Tells what a call answered, in place: a reply handed on by value is copied right behind the bytes just written.
    pub(crate) fn tell(&mut self, outcome: Result<Answer, Refusal>)
        requires { self.old.text.bytes ≡ [] }
        ensures { self.new.text.bytes ≡ rendered (said outcome) }
    {
        match outcome {
            Ok(answer) => self.answer(answer),
            Err(refusal) => self.refusal(refusal),
        }
        self.end();
    }

    pub(crate) fn as_bytes(&self) -> &[u8]
        ensures bytes { result.now ≡ self.now.text.bytes }
        ensures few { length result.now ≤ 64 }
    {
        self.text.as_bytes()
    }
}
