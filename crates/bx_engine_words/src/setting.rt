//! The settings of a command, each of one word or two.

ghost use Rattle.std.specs.Prelude.{◌≡◌, ◌<◌, ◌^◌, ◌∷◌, ◌↔◌, ℕ, IsTrue, List, MatchOption, map, string_bytes};
ghost use Rattle.std.specs.Fmt.{decimal};
ghost use Rattle.bx_engine_words.specs.Commands.{command_of, command_of_option};
ghost use Rattle.bx_engine_words.specs.Given.{IsNumber, IsNumberSetting};
ghost use Rattle.bx_engine_words.specs.Settings.{BeginWith, IsValue, flag_text, odd_start, option_text};
ghost use Rattle.bx_engine_words.specs.Settings.{greatest as greatest_of, least as least_of};
ghost use Rattle.bx_engine_words.specs.declared.setting.FlagOption.{FlagOption as AnyFlag};
ghost use Rattle.bx_engine_words.specs.declared.setting.NumberOption.{NumberOption as AnyOption};
ghost use Rattle.bx_engine_words.specs.declared.setting.Setting.{Setting as AnySetting};

use crate::command::Command;
use crate::order::{MAX_EVAL_BUDGET, MAX_GENERATED_PIPS, MAX_KEPT, MAX_TOOL_BUDGET, MAX_WORKERS};

/// An option whose value is a number.
#[derive(Clone, Copy, Debug, PartialEq, Eq)]
pub(crate) enum NumberOption {
    Workers,
    EvalBudget,
    ToolBudget,
    Keep,
    Seed,
    Pips,
}

/// An option without a value.
#[derive(Clone, Copy, Debug, PartialEq, Eq)]
pub(crate) enum FlagOption {
    NoCache,
    Types,
    GraphCache,
}

/// An option with its value, if it has one.
#[derive(Clone, Copy, Debug, PartialEq, Eq)]
pub(crate) enum Setting {
    Number(NumberOption, u64),
    Flag(FlagOption),
}

impl NumberOption {
    /// The option with this text.
    fn named(text: &str) -> Option<NumberOption>
        ensures { MatchOption result
            ((option : AnyOption) → text.now ≡ option_text option → ⊥)
            (λ option. text.now ≡ option_text option) }
    {
        match text {
            "--workers" => Some(NumberOption::Workers),
            "--eval-budget" => Some(NumberOption::EvalBudget),
            "--tool-budget" => Some(NumberOption::ToolBudget),
            "--keep" => Some(NumberOption::Keep),
            "--seed" => Some(NumberOption::Seed),
            "--pips" => Some(NumberOption::Pips),
            _ => None,
        }
    }

    /// The command that has the option.
    fn command(self) -> Command
        ensures { result ≡ command_of_option self }
    {
        match self {
            NumberOption::Workers | NumberOption::EvalBudget | NumberOption::ToolBudget => {
                Command::Build
            }
            NumberOption::Keep => Command::Trim,
            NumberOption::Seed | NumberOption::Pips => Command::Gen,
        }
    }

    /// The least value.
    fn least(self) -> u64
        ensures { result ≡ least_of self }
    {
        match self {
            NumberOption::Workers
            | NumberOption::EvalBudget
            | NumberOption::ToolBudget
            | NumberOption::Pips => 1,
            NumberOption::Keep | NumberOption::Seed => 0,
        }
    }

    /// The greatest value.
    fn greatest(self) -> u64
        ensures { result ≡ greatest_of self }
    {
        match self {
            NumberOption::Workers => MAX_WORKERS as u64,
            NumberOption::EvalBudget => MAX_EVAL_BUDGET,
            NumberOption::ToolBudget => MAX_TOOL_BUDGET,
            NumberOption::Keep => MAX_KEPT as u64,
            NumberOption::Seed => u64::MAX,
            NumberOption::Pips => MAX_GENERATED_PIPS as u64,
        }
    }

    /// Whether the number is a value of this option.
    fn has_value(self, number: u64) -> bool
        ensures { IsTrue result ↔ IsValue self number }
    {
        self.least() <= number && number <= self.greatest()
    }
}

impl FlagOption {
    /// The flag with this text.
    fn named(text: &str) -> Option<FlagOption>
        ensures { MatchOption result
            ((flag : AnyFlag) → text.now ≡ flag_text flag → ⊥)
            (λ flag. text.now ≡ flag_text flag) }
    {
        match text {
            "--no-cache" => Some(FlagOption::NoCache),
            "--types" => Some(FlagOption::Types),
            "--graph-cache" => Some(FlagOption::GraphCache),
            _ => None,
        }
    }
}

impl Setting {
    /// The command that has the option.
    pub(crate) fn command(self) -> Command
        ensures { result ≡ command_of self }
    {
        match self {
            Setting::Number(option, _) => option.command(),
            Setting::Flag(_) => Command::Build,
        }
    }
}

/// Whether a text begins with a plus, or with a zero before something else.
fn has_odd_start(text: &[u8]) -> bool
    ensures { result ≡ odd_start text.now }
{
    match text.split_first() {
        Some((first, rest)) => *first == b'+' || (*first == b'0' && !rest.is_empty()),
        None => false,
    }
}

/// The number of 64 bits that has this text in decimal digits.
fn read_number(text: &str) -> Option<u64>
    ensures { MatchOption result
        ((n : ℕ) → n < 2 ^ 64 → text.now ≡ decimal n → ⊥)
        (λ n. (n < 2 ^ 64) × (text.now ≡ decimal n)) }
{
    if has_odd_start(text.as_bytes()) {
        return None;
    }
    text.parse::<u64>().ok()
}

/// The setting of an option with this text to the number with that one, if it is in the option's range.
fn read_value(name: &str, text: &str) -> Option<Setting>
    ensures { MatchOption result
        ((option : AnyOption) (n : ℕ) → IsNumber name.now text.now option n → ⊥)
        (λ setting. IsNumberSetting name.now text.now setting) }
{
    let option = NumberOption::named(name)?;
    let number = read_number(text)?;
    if !option.has_value(number) {
        return None;
    }
    Some(Setting::Number(option, number))
}

/// The setting that words begin with, of which this is the first, and the words after it.
pub(crate) fn read_setting<'a>(first: &str, rest: &'a [String]) -> Option<(Setting, &'a [String])>
    ensures { MatchOption result
        ((setting : AnySetting) (after : List (List ℕ))
        → BeginWith (first.now ∷ map string_bytes rest.entry.now) setting after → ⊥)
        (λ x. BeginWith (first.now ∷ map string_bytes rest.entry.now) x.0 (map string_bytes x.1.now)) }
{
    if let Some(flag) = FlagOption::named(first) {
        return Some((Setting::Flag(flag), rest));
    }
    if let Some((name, text)) = first.split_once('=') {
        return Some((read_value(name, text)?, rest));
    }
    let (text, after) = rest.split_first()?;
    Some((read_value(first, text.as_str())?, after))
}
