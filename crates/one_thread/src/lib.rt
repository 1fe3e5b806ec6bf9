//! Executes all pips sequentially, without a cache: the reference build that every other build is compared with.
//!
//! The result of each pip is determined by the results of its dependencies, by its view, and by the run of its
//! tool. This crate depends on `pip_view`, `run_record` and `violations`, and on `graph_check` for the rules that
//! the pips keep. It carries the promises that the build is as defined, and that no output lies below another or is
//! there twice.
#![tactic(auto)]

mod build;
mod ended;
mod gathering;
mod laws;
mod least;
mod lines;
mod outputs_apart;
mod shared;

pub use build::{Built, build_all};
pub use ended::{Frame, PipResult, Started, after_outcome, after_success, is_good, start};
pub use gathering::outputs;
pub use laws::each_result;
pub use least::{least_clash_of_writes, least_missing_output};
pub use lines::each_verdict_has_its_line;
pub use outputs_apart::{kept_files_keep_apart, outputs_keep_apart};
pub use shared::SharedFiles;
