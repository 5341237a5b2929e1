// A list of calls on a fresh case.
ghost use Rattle.history.specs.History.{history};
ghost use Rattle.history.specs.Reaching.{Played};
ghost use Rattle.history.specs.Rules.{Rules};
ghost use Rattle.std.specs.Prelude.{IfOk};

use crate::calls::{Answer, Call};
use crate::performing::perform;
use judge::{Case, Refusal};
use price::Tariff;
use std::alloc::{AllocError, Global};

/// The answers of all calls, in order, on a fresh case under one tariff. Refused only for want of memory, before the first call.
pub fn play<T: Tariff>(
    heap: Global,
    tariff: &T,
    calls: &[Call],
) -> Result<Vec<Result<Answer, Refusal>>, AllocError>
    ensures answers { IfOk result (λ v. Played (T.le tariff.now) (T.unit tariff.now) calls.now v.items) }
    ensures rules { IfOk result (λ v. Rules (T.le tariff.now) (history calls.now v.items)) }
{
    let mut case = Case::new(heap)?;
    let mut answers = Vec::with_capacity(heap, calls.len())?;
    for call in calls {
        answers.push_reserved(perform(&mut case, tariff, call));
    }
    Ok(answers)
}
