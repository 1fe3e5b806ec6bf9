//! What holds of all path sets and their texts.
ghost use Rattle.std.specs.Prelude.{◌≡◌, ◌↔◌, ℕ, List, Some};
ghost use Rattle.bx_tree.specs.Sets.{IsSetOf};
ghost use Rattle.observed.specs.Asks.{ask_cmp};
ghost use Rattle.observed.specs.declared.ask.Ask.{Ask as AnyAsk};
ghost use Rattle.observed.specs.PathSets.{IsPathSet, set_of};
ghost use Rattle.observed.specs.Texts.{paths_text, read_paths_text};

/// The asks of a list have one path set.
pub fn one_path_set()
    ensures is { (asks : List AnyAsk) → IsSetOf ask_cmp asks (set_of asks) }
    ensures only { (asks set : List AnyAsk) → IsSetOf ask_cmp asks set → set ≡ set_of asks }
{}

/// A text is read as a path set exactly where it is the text of that path set.
pub fn path_set_text()
    ensures { (text : List ℕ) (set : List AnyAsk) →
        (read_paths_text text ≡ Some set) ↔ (IsPathSet set × (text ≡ paths_text set)) }
{}
