//! Reads the words of the command line.

ghost use Rattle.std.specs.Prelude.{◌≡◌, ℕ, List, MatchOption, MatchResult, map, string_bytes};
ghost use Rattle.bx_engine_words.specs.Given.{build_with_given, order_with_given};
ghost use Rattle.bx_engine_words.specs.Words.{AreOptions, Orders};
ghost use Rattle.bx_engine_words.specs.declared.order.Order.{Order as TheOrder};

use crate::command::Command;
use crate::given::Given;
use crate::order::{DEFAULT_EVAL_BUDGET, DEFAULT_TOOL_BUDGET, DEFAULT_WORKERS, Order};
use crate::setting::read_setting;

/// Why words are no order.
#[derive(Clone, Copy, Debug, PartialEq, Eq)]
pub enum WordFault {
    /// The words are no command.
    NoCommand,
}

/// The build with these settings.
fn build_with(given: Given) -> Order
    ensures { result ≡ build_with_given given }
{
    Order::Build {
        workers: given.workers.unwrap_or(DEFAULT_WORKERS),
        cached: !given.no_cache,
        eval_budget: given.eval_budget.unwrap_or(DEFAULT_EVAL_BUDGET),
        tool_budget: given.tool_budget.unwrap_or(DEFAULT_TOOL_BUDGET),
        types: given.types,
        graphs: given.graph_cache,
    }
}

/// The order of a command with these settings, if none that it needs is missing.
fn order_with(command: Command, given: Given) -> Option<Order>
    ensures { result ≡ order_with_given command given }
{
    match command {
        Command::Build => Some(build_with(given)),
        Command::Check => Some(Order::Check),
        Command::Repair => Some(Order::Repair),
        Command::Trim => {
            let keep = given.keep?;
            Some(Order::Trim { keep })
        }
        Command::Gen => {
            let seed = given.seed?;
            let pips = given.pips?;
            Some(Order::Gen { seed, pips })
        }
    }
}

/// The order of a command with the options that these words are.
fn read_options(command: Command, words: &[String]) -> Option<Order>
    ensures { MatchOption result
        ((order : TheOrder) → AreOptions command (map string_bytes words.now) order → ⊥)
        (λ order. AreOptions command (map string_bytes words.now) order) }
{
    let mut given = Given::none();
    let mut rest = words;
    'settings: while let Some((first, others)) = rest.split_first() {
        let (setting, after) = read_setting(first.as_str(), others)?;
        if !command.takes(setting) {
            return None;
        }
        given = given.and(setting)?;
        rest = after;
    }
    order_with(command, given)
}

/// The order that the words after the program's name are: the word of a command, and then its options, in any order and
/// each once at most. `build` has `--workers`, `--eval-budget`, `--tool-budget`, `--no-cache`, `--types` and `--graph-cache`;
/// `trim` needs `--keep`, and `gen` needs `--seed` and `--pips`; `check` and `repair` have none. A number follows a `=` in the word of its
/// option, or is the next word.
pub fn read_words(words: &[String]) -> Result<Order, WordFault>
    ensures { MatchResult result
        (λ order. Orders (map string_bytes words.now) order)
        (λ _. (order : TheOrder) → Orders (map string_bytes words.now) order → ⊥) }
{
    let Some((first, rest)) = words.split_first() else {
        return Err(WordFault::NoCommand);
    };
    match Command::named(first.as_str()) {
        Some(command) => read_options(command, rest).ok_or(WordFault::NoCommand),
        None => Err(WordFault::NoCommand),
    }
}
