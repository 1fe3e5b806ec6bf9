//! What holds where a reason does.
ghost use Rattle.pip_model_types.specs.declared.desc.Desc.{Desc as AnyDesc};
ghost use Rattle.observed.specs.declared.ask.Ask.{Ask as AnyAsk};
ghost use Rattle.observed.specs.declared.access.Answer.{Answer as AnyAnswer};
ghost use Rattle.bx_io.specs.Holdings.{Holdings};
ghost use Rattle.memo_format.specs.declared.selector.Selector.{Selector as AnySelector};
ghost use Rattle.two_phase_meaning.specs.Usable.{Usable, UsableBy};
ghost use Rattle.miss_reasons.specs.Reasons.{IsNoFit, IsReason};
ghost use Rattle.miss_reasons.specs.declared.reason.NoFit.{NoFit as AnyNoFit};
ghost use Rattle.miss_reasons.specs.declared.reason.Reason.{Reason as AnyReason};

/// A selector with a reason is not usable, and for a process with one nothing is.
pub fn reasons_exclude()
    ensures selector { (S : Holdings) (d : AnyDesc) (see : AnyAsk → AnyAnswer) (s : AnySelector) (why : AnyNoFit)
        → IsNoFit S d see s why → UsableBy S d see s → ⊥ }
    ensures process { (S : Holdings) (d : AnyDesc) (see : AnyAsk → AnyAnswer) (reason : AnyReason)
        → IsReason S d see reason → Usable S d see → ⊥ }
{}
