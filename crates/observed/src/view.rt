//! What answers the asks of a run.
ghost use Rattle.std.specs.Prelude.{◌≡◌, IfOk, map};
ghost use Rattle.observed.specs.declared.ask.Ask.{Ask as AnyAsk};
ghost use Rattle.observed.specs.declared.access.Answer.{Answer as AnyAnswer};

use crate::access::Answer;
use crate::ask::Ask;
use crate::path_set::PathSet;
use std::alloc::{AllocError, Global};

/// Answers asks. An ask has one answer, however often and whenever it is put.
pub trait View {
    /// What each ask is answered: the meaning of the view.
    ghost answers: { Self → AnyAsk → AnyAnswer };

    /// Answers an ask.
    fn ask(&mut self, alloc: Global, ask: &Ask) -> Result<Answer, AllocError>
        ensures answer { IfOk result (λ answer. answer ≡ answers self.old ask.now) }
        ensures same { answers self.new ≡ answers self.old };
}

/// What a view answers to the asks of a path set, in their order.
pub fn answers_to<V: View>(
    alloc: Global,
    paths: &PathSet,
    view: &mut V,
) -> Result<Vec<Answer>, AllocError>
    ensures answers { IfOk result (λ answers. answers.items ≡ map (V.answers view.old) paths.now) }
    ensures same { V.answers view.new ≡ V.answers view.old }
{
    let mut answers = Vec::new(alloc);
    let asks = paths.asks();
    'asks: for ask in asks {
        answers.push(view.ask(alloc, ask)?)?;
    }
    Ok(answers)
}
