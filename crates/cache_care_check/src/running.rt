//! The run of an entry on its stored answers.
ghost use Rattle.std.specs.Prelude.{◌≡◌, IfOk, MatchOption, length};
ghost use Rattle.bx_tree.specs.Trees.{Files};
ghost use Rattle.cache_care_check.specs.Judging.{MakesJust};

use observed::{Answer, PathSet};
use pip_model_types::{Desc, Made};
use run_record::{Outcome, replay};
use std::alloc::{AllocError, Global};

// The files of a success, shared.
fn made_by(outcome: &Outcome) -> Result<Option<Made>, AllocError>
    ensures { IfOk result (λ made. MatchOption made
        ((files : Files) → outcome.now ≡ Outcome.Good files → ⊥)
        (λ files. outcome.now ≡ Outcome.Good files)) }
{
    match outcome {
        Outcome::Good(made) => Ok(Some(made.share()?)),
        Outcome::Failed(_) => Ok(None),
    }
}

/// The files that a process makes over stored answers, if its run asks just this path set and succeeds.
pub(crate) fn files_of_run(
    alloc: Global,
    desc: Desc,
    paths: &PathSet,
    answers: Vec<Answer>,
) -> Result<Option<Made>, AllocError>
    requires { length answers.items ≡ length paths.now }
    ensures { IfOk result (MakesJust desc paths.now answers.items) }
{
    match replay(alloc, desc, paths, answers)? {
        Some(ran) => made_by(ran.outcome()),
        None => Ok(None),
    }
}
