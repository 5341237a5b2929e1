// Any call, by one function.
ghost use Rattle.std.specs.Prelude.{◌≡◌, ◌^◌};
ghost use Rattle.history.specs.Answers.{price, said};
ghost use Rattle.history.specs.Calls.{request};
ghost use Rattle.history.specs.Performing.{after, answered};
ghost use Rattle.history.specs.Reaching.{KeepsRules};
ghost use Rattle.price.specs.Pairs.{Pair};
ghost use Rattle.price.specs.Ranges.{Both};

use crate::calls::{Answer, Call};
use judge::{Case, Refusal};
use price::Tariff;

// The method of the call, and its result as an answer.
fn dispatch<T: Tariff>(case: &mut Case, tariff: &T, call: &Call) -> Result<Answer, Refusal>
    ensures answer { said result ≡ answered (T.le tariff.now) (T.unit tariff.now) case.old (request call.now) }
    ensures kept { case.new ≡ after (T.le tariff.now) (T.unit tariff.now) case.old (request call.now) }
    ensures small { (p : Pair) → said result ≡ price p → Both (2 ^ 42) p }
{
    // calls are data, read from a line, and each kind has numbers of its own
    match *call {
        Call::Edge(new) => case.edge(new).map(Answer::Number),
        Call::Row {
            relation,
            k,
            coefficients,
        } => case.row(relation, k, coefficients).map(Answer::Number),
        Call::Seal => case.seal().map(|(start, end)| Answer::Ends(start, end)),
        Call::Claim { turns, tree } => case.claim(tariff, turns, tree).map(Answer::Price),
        Call::Void { tree } => case.void(tariff, tree).map(|()| Answer::Agreed),
        Call::Step => case.step().map(|edge| match edge {
            Some(edge) => Answer::Next(edge),
            None => Answer::Done,
        }),
        Call::Withdraw => case.withdraw().map(|()| Answer::Agreed),
        Call::Told => Ok(Answer::Told(case.told())),
    }
}

/// Has the case do what is asked under this tariff, and answers what it answered. Whatever calls under
/// this tariff brought a fresh case here, with this one they keep the rules.
pub fn perform<T: Tariff>(case: &mut Case, tariff: &T, call: &Call) -> Result<Answer, Refusal>
    ensures answer { said result ≡ answered (T.le tariff.now) (T.unit tariff.now) case.old (request call.now) }
    ensures kept { case.new ≡ after (T.le tariff.now) (T.unit tariff.now) case.old (request call.now) }
    ensures small { (p : Pair) → said result ≡ price p → Both (2 ^ 42) p }
    ensures rules { KeepsRules (T.le tariff.now) (T.unit tariff.now) case.old (request call.now) (said result) case.new }
{
    dispatch(case, tariff, call)
}
