//! The settings that were read so far.

ghost use Rattle.std.specs.Prelude.{◌≡◌, [], MatchOption, false, true, ⊤};
ghost use Rattle.bx_engine_words.specs.Given.{HasValue, given_of, is_given, with_setting};

use crate::setting::{FlagOption, NumberOption, Setting};

/// The value of each option that was given.
#[derive(Clone, Copy)]
pub(crate) struct Given {
    pub workers: Option<u32>,
    pub eval_budget: Option<u64>,
    pub tool_budget: Option<u64>,
    pub keep: Option<u32>,
    pub seed: Option<u64>,
    pub pips: Option<u32>,
    pub no_cache: bool,
    pub types: bool,
    pub graph_cache: bool,
}

impl Given {
    /// No option was given.
    pub(crate) fn none() -> Given
        ensures { result ≡ given_of [] }
    {
        Given {
            workers: None,
            eval_budget: None,
            tool_budget: None,
            keep: None,
            seed: None,
            pips: None,
            no_cache: false,
            types: false,
            graph_cache: false,
        }
    }

    /// Whether the option of a setting was given.
    fn has(&self, setting: Setting) -> bool
        ensures { result ≡ is_given self.now setting }
    {
        match setting {
            Setting::Number(NumberOption::Workers, _) => self.workers.is_some(),
            Setting::Number(NumberOption::EvalBudget, _) => self.eval_budget.is_some(),
            Setting::Number(NumberOption::ToolBudget, _) => self.tool_budget.is_some(),
            Setting::Number(NumberOption::Keep, _) => self.keep.is_some(),
            Setting::Number(NumberOption::Seed, _) => self.seed.is_some(),
            Setting::Number(NumberOption::Pips, _) => self.pips.is_some(),
            Setting::Flag(FlagOption::NoCache) => self.no_cache,
            Setting::Flag(FlagOption::Types) => self.types,
            Setting::Flag(FlagOption::GraphCache) => self.graph_cache,
        }
    }

    /// These settings and one more.
    fn with(self, setting: Setting) -> Given
        requires { HasValue setting }
        ensures { result ≡ with_setting self setting }
    {
        match setting {
            Setting::Number(NumberOption::Workers, number) => Given {
                workers: Some(number as u32),
                ..self
            },
            Setting::Number(NumberOption::EvalBudget, number) => Given {
                eval_budget: Some(number),
                ..self
            },
            Setting::Number(NumberOption::ToolBudget, number) => Given {
                tool_budget: Some(number),
                ..self
            },
            Setting::Number(NumberOption::Keep, number) => Given {
                keep: Some(number as u32),
                ..self
            },
            Setting::Number(NumberOption::Seed, number) => Given {
                seed: Some(number),
                ..self
            },
            Setting::Number(NumberOption::Pips, number) => Given {
                pips: Some(number as u32),
                ..self
            },
            Setting::Flag(FlagOption::NoCache) => Given {
                no_cache: true,
                ..self
            },
            Setting::Flag(FlagOption::Types) => Given {
                types: true,
                ..self
            },
            Setting::Flag(FlagOption::GraphCache) => Given {
                graph_cache: true,
                ..self
            },
        }
    }

    /// These settings and one more, if its option was not given.
    pub(crate) fn and(self, setting: Setting) -> Option<Given>
        requires { HasValue setting }
        ensures free { MatchOption result
            (is_given self setting ≡ true)
            (λ _. is_given self setting ≡ false) }
        ensures more { MatchOption result ⊤ (λ given. given ≡ with_setting self setting) }
    {
        if self.has(setting) {
            return None;
        }
        Some(self.with(setting))
    }
}
