//! The answers that a run was given.
ghost use Rattle.std.specs.Prelude.{◌≡◌, ◌<◌, IfOk, MatchOption, OnOk, All, Option, false, length, map, replicate};
ghost use Rattle.std.specs.List.{HoldsAt};
ghost use Rattle.std.specs.List.Sorted.{IsStrictlySortedBy};
ghost use Rattle.observed.specs.Asks.{ask_cmp, same_ask};
ghost use Rattle.observed.specs.declared.access.Answer.{Answer as AnyAnswer};
ghost use Rattle.observed.specs.declared.access.Answer.TheVariants as answers;
ghost use Rattle.observed.specs.declared.ask.Ask.{Ask as AnyAsk};
ghost use Rattle.run_record.specs.Answered.{given_in, or_absent, with_access};

use observed::{Access, Answer, Ask};
use std::alloc::{AllocError, Global};

// So many answers, all of them absent.
fn absent(alloc: Global, count: usize) -> Result<Vec<Answer>, AllocError>
    ensures { IfOk result (λ absent. absent.items ≡ replicate count answers.Absent) }
{
    let mut absent = Vec::with_capacity(alloc, count)?;
    'answers: while absent.len() < count {
        absent.push(Answer::Absent)?;
    }
    Ok(absent)
}

// The place of an ask among asks in order, looked for at a guess first.
fn place_of(asks: &[Ask], guess: usize, ask: &Ask) -> Option<usize>
    requires { IsStrictlySortedBy ask_cmp asks.now }
    ensures { MatchOption result
        (All (λ q. same_ask ask.now q ≡ false) asks.now)
        (λ place. (place < length asks.now) × HoldsAt (λ q. q ≡ ask.now) asks.now place) }
{
    if guess < asks.len() && asks[guess] == *ask {
        return Some(guess);
    }
    asks.binary_search(ask).ok()
}

// Puts the answer of an access at the place of its ask, if it is one, and tells where the next one may be.
fn put(
    answers: &mut Vec<Answer>,
    asks: &[Ask],
    guess: usize,
    access: &Access,
) -> Result<usize, AllocError>
    requires order { IsStrictlySortedBy ask_cmp asks.now }
    requires number { length answers.old.items ≡ length asks.now }
    ensures { OnOk result ((f : AnyAsk → Option AnyAnswer) → answers.old.items ≡ map (λ q. or_absent (f q)) asks.now
        → answers.new.items ≡ map (λ q. or_absent (with_access access.now q (f q))) asks.now) }
{
    let Access::Asked(ask, answer) = access else {
        return Ok(guess);
    };
    match place_of(asks, guess, ask) {
        Some(place) => {
            answers[place] = answer.share()?;
            Ok(place + 1)
        }
        None => Ok(guess),
    }
}

// The answer that each of these asks was given in accesses: the last one, absent where it was not asked.
pub(crate) fn given_to(
    alloc: Global,
    accesses: &[Access],
    asks: &[Ask],
) -> Result<Vec<Answer>, AllocError>
    requires { IsStrictlySortedBy ask_cmp asks.now }
    ensures { IfOk result (λ answers. answers.items ≡ map (given_in accesses.now) asks.now) }
{
    let mut answers = absent(alloc, asks.len())?;
    let mut guess = 0;
    'accesses: for access in accesses {
        guess = put(&mut answers, asks, guess, access)?;
    }
    Ok(answers)
}
