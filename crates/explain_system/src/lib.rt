//! Command line, texts and pages of the program `explain`.
//!
//! It depends on `tool_faults`, `pip_graph`, `build_misses` and `miss_reasons` for what there is to say, on `html_page` for
//! pages, whose texts are escaped, and on `bx_engine_front` for plans. It carries no promise of its own;
//! `cases/explain` shows what it does.
#![tactic(auto)]

mod differences;
mod fronting;
mod misses;
mod paging;
mod picture;
mod report;
mod sections;
mod shown;
mod tools;
mod words;

pub use fronting::{Refused, plan_of_text};
pub use misses::miss_lines;
pub use paging::graph_page;
pub use report::{PipEnd, ends_of, read_report};
pub use tools::{fault_lines, use_lines};
pub use words::{Command, read_words};
