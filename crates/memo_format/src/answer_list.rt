//! Answers that are shared, so that what was found with the same answers holds them once.
ghost use Rattle.std.specs.Prelude.{◌≡◌, IfOk};

use observed::Answer;
use std::alloc::{AllocError, Global};
use std::marker::Model;
use std::sync::Arc;

/// Answers, one to each ask of a path set, in its order. They are shared. Contracts see them as the list.
#[derive(Drop)]
pub struct AnswerList {
    answers: Arc<Vec<Answer>>,
}

impl Model for AnswerList {
    ghost use Rattle.std.specs.Arc.{arc_value};
    ghost use Rattle.std.specs.Prelude.{List};
    ghost use Rattle.observed.specs.declared.access.Answer.{Answer};

    ghost Value = { List Answer };

    ghost view = { λ a. (arc_value a.answers).items };
}

impl AnswerList {
    /// The list of these answers.
    pub fn of(alloc: Global, answers: Vec<Answer>) -> Result<AnswerList, AllocError>
        ensures { IfOk result (λ list. list ≡ answers.items) }
    {
        Ok(AnswerList {
            answers: Arc::new(alloc, answers)?,
        })
    }

    /// The answers, in order.
    pub fn answers(&self) -> &[Answer]
        ensures { result.now ≡ self.now }
    {
        self.answers.as_slice()
    }

    /// The list, shared.
    pub fn share(&self) -> Result<AnswerList, AllocError>
        ensures { IfOk result (λ list. list ≡ self.now) }
    {
        Ok(AnswerList {
            answers: self.answers.clone()?,
        })
    }
}
