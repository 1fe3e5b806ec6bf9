//! What a run asked and was answered. Runs that asked the same and were answered the same share it, whatever each of them wrote.
ghost use Rattle.std.specs.Prelude.{◌≡◌, ◌↔◌, IsTrue, true};

use crate::holding::is_same_answer;
use observed::{Answer, PathSet};
use std::marker::Model;

// A path set with an answer to each of its asks.
#[derive(Drop)]
pub(crate) struct Trace {
    pub(crate) paths: PathSet,
    pub(crate) answers: Vec<Answer>,
}

impl Model for Trace {
    ghost use Rattle.run_record.specs.Traces.{TraceData};

    ghost Value = { TraceData };

    ghost view = { λ t. record {
      paths = t.paths;
      answers = t.answers.items;
    } };
}

// Whether path sets are the same.
pub(crate) fn are_same_paths(paths: &PathSet, other: &PathSet) -> bool
    ensures { IsTrue result ↔ paths.now ≡ other.now }
{
    paths.asks() == other.asks()
}

/// Whether answers are the same, in order.
pub fn are_same_answers(a: &[Answer], b: &[Answer]) -> bool
    ensures { IsTrue result ↔ a.now ≡ b.now }
{
    if a.len() != b.len() {
        return false;
    }
    'answers: for place in 0..a.len() {
        if !is_same_answer(&a[place], &b[place]) {
            return false;
        }
    }
    true
}

impl Trace {
    // Whether the same was asked and answered.
    pub(crate) fn is_same(&self, other: &Trace) -> bool
        ensures { IsTrue result ↔ self.now ≡ other.now }
    {
        are_same_paths(&self.paths, &other.paths)
            && are_same_answers(self.answers.as_slice(), other.answers.as_slice())
    }
}
