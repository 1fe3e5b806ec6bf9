//! What holds of all comparisons.
ghost use Rattle.std.specs.Prelude.{◌≡◌, ◌≢◌};
ghost use Rattle.observed.specs.declared.ask.Ask.{Ask as AnyAsk};
ghost use Rattle.observed.specs.declared.access.Answer.{Answer as AnyAnswer};
ghost use Rattle.pip_model_types.specs.declared.desc.Desc.{Desc as AnyDesc};
ghost use Rattle.run_record.specs.Facts.{Facts};
ghost use Rattle.run_record.specs.declared.matching.Match.{Match as AnyMatch};
ghost use Rattle.run_record.specs.declared.matching.Match.TheVariants as matches;
ghost use Rattle.run_record.specs.Matches.{Compares};

/// A comparison comes to one answer, but for the want of memory: so each answer is given exactly where its
/// meaning holds.
pub fn one_match()
    ensures { (d : AnyDesc) (f : Facts) (see : AnyAsk → AnyAnswer) (m n : AnyMatch) →
        Compares d f see m → Compares d f see n → m ≢ matches.Memory → n ≢ matches.Memory → m ≡ n }
{}
