//! What was before holds still.
ghost use Rattle.std.specs.Prelude.{◌≡◌, ℕ, List, Some};
ghost use Rattle.bx_io.specs.Holdings.{Holdings};
ghost use Rattle.observed.specs.declared.ask.Ask.{Ask as AnyAsk};
ghost use Rattle.observed.specs.declared.access.Answer.{Answer as AnyAnswer};
ghost use Rattle.observed.specs.Texts as now_paths;
ghost use Rattle.pip_model_types.specs.declared.desc.Desc.{Desc as AnyDesc};
ghost use Rattle.prints.specs.Strong as now_strong;
ghost use Rattle.tool_run.specs.Described.{described as described_now};
ghost use Rattle.tool_run.specs.Run as now_runs;
ghost use Rattle.two_phase_meaning.specs.Honest.{Honest as HonestNow};
ghost use Rattle.two_phase_meaning.specs.Usable.{Usable as UsableNow};
ghost use Rattle.before_patterns.specs.Asks.{WereAsks};
ghost use Rattle.before_patterns.specs.PathTexts as old_paths;
ghost use Rattle.before_patterns.specs.Runs as old_runs;
ghost use Rattle.before_patterns.specs.Stores.{Honest, Usable};
ghost use Rattle.before_patterns.specs.StrongTexts as old_strong;
ghost use Rattle.before_patterns.specs.Tools.{IsNoSecond};

/// The run of a process whose executable is no tool of the second version, its path set, and the asks of which that
/// has some, are what they were.
pub fn runs_are_as_before()
    ensures run { (d : AnyDesc) (a : AnyAsk → AnyAnswer) → IsNoSecond d.exe
        → now_runs.run_of (described_now d) a ≡ old_runs.run_of (old_runs.described d) a }
    ensures paths { (d : AnyDesc) (a : AnyAsk → AnyAnswer) → IsNoSecond d.exe
        → now_runs.path_set (described_now d) (now_runs.run_of (described_now d) a).accesses
        ≡ old_runs.path_set (old_runs.described d) (old_runs.run_of (old_runs.described d) a).accesses }
    ensures asks { (d : AnyDesc) (a : AnyAsk → AnyAnswer) → IsNoSecond d.exe
        → WereAsks (now_runs.path_set (described_now d) (now_runs.run_of (described_now d) a).accesses) }
{}

/// The texts of asks that there were are what they were, and a text that was read as asks is read as them.
pub fn texts_are_as_before()
    ensures paths { (asks : List AnyAsk) → WereAsks asks → now_paths.paths_text asks ≡ old_paths.paths_text asks }
    ensures strong { (asks : List AnyAsk) (weak paths : List ℕ) (given : List AnyAnswer) → WereAsks asks
        → now_strong.strong_text (now_strong.strong_parts (now_paths.has_match asks) weak paths given)
        ≡ old_strong.strong_text (old_strong.strong_parts weak paths given) }
    ensures read { (text : List ℕ) (asks : List AnyAsk) → old_paths.read_paths_text text ≡ Some asks
        → WereAsks asks × (now_paths.read_paths_text text ≡ Some asks) }
{}

/// A store that was honest is honest.
pub fn honest_stays_honest()
    ensures { (S : Holdings) → Honest S → HonestNow S }
{}

/// What was usable is usable.
pub fn usable_stays_usable()
    ensures { (S : Holdings) (d : AnyDesc) (see : AnyAsk → AnyAnswer) → Usable S d see → UsableNow S d see }
{}
