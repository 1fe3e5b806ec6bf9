//! What holds of all honest stores of graphs.
ghost use Rattle.std.specs.Prelude.{◌≡◌, ◌⊎◌, ℕ, List};
ghost use Rattle.std.specs.FinMap.{empty};
ghost use Rattle.bx_tree.specs.Members.{Has};
ghost use Rattle.bx_io.specs.Holdings.{Change, Holdings, holdings_after};
ghost use Rattle.dscript_eval_meaning.specs.Meaning.{Made};
ghost use Rattle.memo_format.specs.StoreNames.{HoldsBlob};
ghost use Rattle.run_record.specs.Collisions.{NoCollision};
ghost use Rattle.graph_texts.specs.Entries.{IsGraphEntry};
ghost use Rattle.graph_texts.specs.declared.entry.GraphEntry.{GraphEntry as AnyEntry};
ghost use Rattle.graph_memo_meaning.specs.Compared.{ComparedInFind, ComparedInKeep};
ghost use Rattle.graph_memo_meaning.specs.Contents.{HoldsGraph, entry_for, made_of, named_texts};
ghost use Rattle.graph_memo_meaning.specs.Honest.{HonestGraphs};
ghost use Rattle.graph_memo_meaning.specs.Saving.{ArePuts, graph_puts};
ghost use Rattle.graph_memo_meaning.specs.Usable.{UsableGraph};
ghost use Rattle.graph_memo_meaning.specs.Work.{Evaluates, IsWork, Work, own_answers};

/// A usable entry of an honest store has the pips and the asks that evaluation makes.
pub fn graphs_hit()
    ensures { (G : Holdings) (w : Work) (e : AnyEntry) → HonestGraphs G → IsWork w
        → NoCollision (ComparedInFind G w) → UsableGraph G w e → Evaluates w (own_answers w) (made_of e) }
{}

/// An honest store stays honest after each of the puts of what evaluation made.
pub fn graph_puts_stay_honest()
    ensures { (G : Holdings) (w : Work) (made : Made) → HonestGraphs G → IsWork w
        → Evaluates w (own_answers w) made → NoCollision (ComparedInKeep G w made.1)
        → (changes : List Change) → ArePuts w made changes → HonestGraphs (holdings_after G changes) }
{}

/// After any prefix of the puts, a text that is held was held before or is one of those that are put, and an entry
/// that is held was held before or is the one that is put.
pub fn graph_puts_add()
    ensures contents { (G : Holdings) (w : Work) (made : Made) (changes : List Change)
        → ArePuts w made changes → (x : List ℕ) → HoldsBlob (holdings_after G changes) x
        → HoldsBlob G x ⊎ Has (named_texts w (own_answers w) made.1) x }
    ensures entries { (G : Holdings) (w : Work) (made : Made) (changes : List Change)
        → ArePuts w made changes → (e : AnyEntry) → HoldsGraph (holdings_after G changes) e
        → HoldsGraph G e ⊎ (e ≡ entry_for w (own_answers w) made) }
{}

/// What was kept whole is usable.
pub fn kept_is_usable()
    ensures { (G : Holdings) (w : Work) (made : Made) → IsGraphEntry (entry_for w (own_answers w) made)
        → UsableGraph (holdings_after G (graph_puts w made)) w (entry_for w (own_answers w) made) }
{}

/// The store that holds nothing is honest.
pub fn empty_is_honest()
    ensures { HonestGraphs empty }
{}
