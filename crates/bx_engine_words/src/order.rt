//! What a call is to do.

/// How many workers take part in a build where no option says otherwise.
pub const DEFAULT_WORKERS: u32 = 4;

/// How many steps the evaluation of a specification may take where no option says otherwise.
pub const DEFAULT_EVAL_BUDGET: u64 = 10_000_000;

/// How many steps one run of a tool may take where no option says otherwise.
pub const DEFAULT_TOOL_BUDGET: u64 = 100_000;

/// The greatest number of workers of a build.
pub const MAX_WORKERS: u32 = 64;

/// The greatest number of steps that the evaluation of a specification may be given.
pub const MAX_EVAL_BUDGET: u64 = 1_000_000_000;

/// The greatest number of steps that one run of a tool may be given.
pub const MAX_TOOL_BUDGET: u64 = 10_000_000;

/// The greatest number of selectors that trimming leaves of a list.
pub const MAX_KEPT: u32 = 64;

/// The greatest number of pips of a generated workload.
pub const MAX_GENERATED_PIPS: u32 = 16_384;

/// What a call is to do.
#[derive(Clone, Copy, Debug, PartialEq, Eq)]
pub enum Order {
    /// Builds the source tree that the source gives.
    Build {
        /// How many workers take part, from 1 to 64.
        workers: u32,
        /// Whether results are taken from and given to the cache.
        cached: bool,
        /// How many steps the evaluation of the specification may take, from 1 to 1,000,000,000.
        eval_budget: u64,
        /// How many steps one run of a tool may take, from 1 to 10,000,000.
        tool_budget: u64,
        /// Whether the types of the specification are checked before it is evaluated.
        types: bool,
        /// Whether pips are taken from and given to the store of graphs, where the cache is used.
        graphs: bool,
    },
    /// Tells whether the store is honest, and what in it is not.
    Check,
    /// Drops from the store each entry that is not honest, and each name that is not well-formed.
    Repair,
    /// Drops from the store all but what the first selectors of each list lead to.
    Trim {
        /// How many selectors of each list stay, from 0 to 64.
        keep: u32,
    },
    /// Writes the bundle of a large workload.
    Gen {
        /// What its numbers begin with.
        seed: u64,
        /// How many pips it has, from 1 to 16,384.
        pips: u32,
    },
}
