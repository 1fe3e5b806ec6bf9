//! What follows from what keeping an entry leaves.
ghost use Rattle.std.specs.Prelude.{◌≡◌, Some, IsSome};
ghost use Rattle.bx_io.specs.Holdings.{Holdings, StoreTold, held_in};
ghost use Rattle.dscript_eval_meaning.specs.Meaning.{Made};
ghost use Rattle.run_record.specs.Collisions.{NoCollision};
ghost use Rattle.graph_memo_meaning.specs.Compared.{ComparedInKeep};
ghost use Rattle.graph_memo_meaning.specs.Contents.{entry_for};
ghost use Rattle.graph_memo_meaning.specs.Honest.{HonestGraphs};
ghost use Rattle.graph_memo_meaning.specs.Usable.{UsableGraph};
ghost use Rattle.graph_memo_meaning.specs.Work.{Evaluates, IsWork, Work, own_answers};
ghost use Rattle.graph_memo.specs.Keeping.{KeepsAll, KeepsUpTo, LeavesHonest};

/// Keeping what evaluation made leaves an honest store honest after each of its changes.
pub fn keeps_stay_honest()
    ensures { (held : Holdings) (before now : StoreTold) (w : Work) (made : Made)
        → held_in before ≡ Some held → IsSome (held_in now) → IsWork w → Evaluates w (own_answers w) made
        → KeepsUpTo before now w made → HonestGraphs held → NoCollision (ComparedInKeep held w made.1)
        → LeavesHonest held before now }
{}

/// What was kept whole is usable.
pub fn kept_is_usable()
    ensures { (held after : Holdings) (before now : StoreTold) (w : Work) (made : Made)
        → held_in before ≡ Some held → held_in now ≡ Some after → KeepsAll before now w made
        → UsableGraph after w (entry_for w (own_answers w) made) }
{}
