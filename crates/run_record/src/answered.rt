//! A view of stored answers.
ghost use Rattle.std.specs.Prelude.{◌≡◌, IfOk, length};
ghost use Rattle.run_record.specs.Answered.{answered};

use observed::{Answer, Ask, PathSet, View};
use std::alloc::{AllocError, Global};

/// A view of the answers that are stored for the asks of a path set: absent where none is stored.
#[derive(Drop)]
pub(crate) struct Stored<'a> {
    paths: &'a PathSet,
    answers: &'a [Answer],
    ghost number: { length answers.now ≡ length paths.now },
}

impl<'a> Stored<'a> {
    pub(crate) fn new(paths: &'a PathSet, answers: &'a [Answer]) -> Stored<'a>
        requires { length answers.now ≡ length paths.now }
        ensures { ⟦<Stored<'a> as View>⟧.answers result ≡ answered paths.now answers.now }
    {
        Stored { paths, answers }
    }
}

// The answer that is stored for an ask, or absent.
fn look_up(paths: &PathSet, answers: &[Answer], ask: &Ask) -> Result<Answer, AllocError>
    requires { length answers.now ≡ length paths.now }
    ensures { IfOk result (λ answer. answer ≡ answered paths.now answers.now ask.now) }
{
    match paths.asks().binary_search(ask) {
        Ok(place) => answers[place].share(),
        Err(_) => Ok(Answer::Absent),
    }
}

impl View for Stored<'_> {
    ghost answers = { λ v. answered v.paths.now v.answers.now };

    fn ask(&mut self, _: Global, ask: &Ask) -> Result<Answer, AllocError> {
        look_up(self.paths, self.answers, ask)
    }
}
