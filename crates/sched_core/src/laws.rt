//! What holds of every legal list of events. No call of this file does anything: its contract is the law.
ghost use Rattle.std.specs.Prelude.{ℕ, List};
ghost use Rattle.sched_core.specs.Laws.{EndsSettled, FewEvents, NothingAfterRelease, OneHolder, OnePip, PublishedOnce, ReachesSound, ReleasedBetween, StartsAfterInputs};
ghost use Rattle.sched_core.specs.Table.{AreOrdered, CoreState};
ghost use Rattle.sched_core.specs.declared.graph.Node.{Node as AnyNode};

/// The laws of legal lists of events: a pip has one holder at most and a worker one pip, each pip is published at
/// most once, each start of a pip stands after a completion with success of each of its inputs, between two starts
/// of a pip it is released, and a worker that released a pip makes no later event. There are at most four events
/// a pip and three a worker.
pub fn legal_events()
    ensures one_holder { (nodes : List AnyNode) (workers : ℕ) → OneHolder nodes workers }
    ensures one_pip { (nodes : List AnyNode) (workers : ℕ) → OnePip nodes workers }
    ensures published_once { (nodes : List AnyNode) (workers : ℕ) → PublishedOnce nodes workers }
    ensures starts_after_inputs { (nodes : List AnyNode) (workers : ℕ) → StartsAfterInputs nodes workers }
    ensures released_between { (nodes : List AnyNode) (workers : ℕ) → ReleasedBetween nodes workers }
    ensures nothing_after_release { (nodes : List AnyNode) (workers : ℕ) → NothingAfterRelease nodes workers }
    ensures sound { (nodes : List AnyNode) (workers : ℕ) → ReachesSound nodes workers }
    ensures few { (nodes : List AnyNode) (workers : ℕ) → FewEvents nodes workers }
{}

/// Where no pip may start or be skipped and nobody holds one, each pip is completed or skipped.
pub fn settled_at_the_end()
    ensures { (s : CoreState) → EndsSettled s }
{}
