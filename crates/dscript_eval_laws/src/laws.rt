//! What faults of evaluation say; what evaluation depends on; that what it gives is a list of pips; and that a frame has
//! a value for each local, as functions are called with the values that they capture.
ghost use Rattle.std.specs.Prelude.{◌≡◌, ◌<◌, ℕ, IsSome, List, Some, Ok, Err, length, unwrap_or};
ghost use Rattle.std.specs.List.{AllByRecursion};
ghost use Rattle.bx_tree.specs.Paths.{Atoms};
ghost use Rattle.bx_tree.specs.Trees.{Files};
ghost use Rattle.pip_model_types.specs.Makers.{IsPipList};
ghost use Rattle.pip_model_types.specs.declared.pip.Pip.{Pip as AnyPip};
ghost use Rattle.dscript_program.specs.ProgramData.{FunctionData, ProgramData};
ghost use Rattle.dscript_value.specs.Plain.{Plain, Undefined};
ghost use Rattle.dscript_sdk_calls.specs.Sources.{AgreeOn, Answers};
ghost use Rattle.dscript_sdk_calls.specs.declared.tree_ask.TreeAsk.{TreeAsk as AnyAsk};
ghost use Rattle.dscript_eval_laws.specs.FoundLocals.{IsLocalOf, found_local};
ghost use Rattle.dscript_eval_laws.specs.FullCalls.{DeclaredCaptureNothing, meaning_or};
ghost use Rattle.dscript_eval_meaning.specs.Acts.{Acts as AnyActs};
ghost use Rattle.dscript_eval_meaning.specs.Frames.{captures, function_frame, local_value, with_local};
ghost use Rattle.dscript_eval_meaning.specs.States.{Frame as AnyFrame, State as AnyState};
ghost use Rattle.dscript_eval_meaning.specs.declared.fault.EvalKind.{EvalKind as AnyKind};
ghost use Rattle.dscript_eval_meaning.specs.declared.fault.EvalKind.TheVariants.{User};
ghost use Rattle.dscript_eval_meaning.specs.Meaning.{Refused, answered_meaning, meaning};

/// A fault of evaluation has a message only where the specification asked to be refused.
pub fn messages_are_of_specifications()
    ensures { (program : ProgramData) (sources : Files) (budget : ℕ) (kind : AnyKind) (file : Atoms)
        (message : List ℕ) → meaning program sources budget ≡ Err (Refused kind file (Some message)) → kind ≡ User }
{}

/// A program makes the same wherever what it asked of the source tree is answered alike.
pub fn asks_decide()
    ensures { (program : ProgramData) (a b : Answers) (budget : ℕ) (pips : List AnyPip) (asks : List AnyAsk)
        → answered_meaning program a budget ≡ Ok (pips, asks) → AgreeOn a b asks
        → answered_meaning program b budget ≡ Ok (pips, asks) }
{}

/// What a program evaluates to is a list of pips: what each names as made, an earlier pip makes. So no pip is refused
/// for what it names.
pub fn pips_are_a_list()
    ensures { (program : ProgramData) (sources : Files) (budget : ℕ) (pips : List AnyPip)
        → meaning program sources budget ≡ Ok pips → IsPipList pips }
{}

/// A local holds what its frame has for it, and undefined only where the frame has nothing. A function that holds as
/// many values as it captures locals begins in a frame that has a value for each of its locals; a frame keeps them when
/// a local is set; and an arrow function holds a value for each local that it captures.
pub fn frames_have_their_locals()
    ensures found { (f : AnyFrame) (n : ℕ) → unwrap_or (found_local f n) Undefined ≡ local_value f n }
    ensures begins { (f : FunctionData) (held args : List Plain)
        → AllByRecursion (λ n. n < f.first_local) f.captured → length held ≡ length f.captured → (n : ℕ)
        → IsLocalOf f n → IsSome (found_local (function_frame f held args) n) }
    ensures goes_on { (f : AnyFrame) (m : ℕ) (x : Plain) (n : ℕ) → IsSome (found_local f n)
        → IsSome (found_local (with_local m x f) n) }
    ensures held { (locals : List ℕ) (s : AnyState) → length (captures locals s) ≡ length locals }
{}

/// A function is called only with as many values as it captures locals: whatever is done where another number of values
/// is held, a program whose declared functions capture nothing means the same.
pub fn calls_hold_what_is_captured()
    ensures { (program : ProgramData) (otherwise : AnyActs) (sources : Files) (budget : ℕ)
        → DeclaredCaptureNothing program → meaning_or program otherwise sources budget ≡ meaning program sources budget }
{}
