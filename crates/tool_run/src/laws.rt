//! What holds of every run, as laws over its definition.
ghost use Rattle.observed.specs.declared.ask.Ask.{Ask as AnyAsk};
ghost use Rattle.observed.specs.declared.access.Answer.{Answer as AnyAnswer};
ghost use Rattle.tool_run.specs.Description.{Description};
ghost use Rattle.tool_run.specs.Laws.{DependsOnPathSet, RunInvariant};
ghost use Rattle.tool_run.specs.Run.{run_of};

/// Two answerers that agree on a run's path set have one run.
pub fn noninterference()
    ensures { (d : Description) → DependsOnPathSet d }
{}

/// Each recorded answer is what was asked; a denied access is the last one and the only one; the
/// steps are within the budget; and each written path is permitted, and lies below no other.
pub fn accesses_hold()
    ensures { (d : Description) (a : AnyAsk → AnyAnswer) → RunInvariant d a (run_of d a) }
{}
