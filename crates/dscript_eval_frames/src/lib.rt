//! The abstract machine of evaluation: its frames, its table of constants, and its stack of work.
//!
//! A frame is a running body with its locals; functions know how the locals that they captured are found. The
//! continuation is a list in memory, so that deep calls take no stack. `specs/` says what each work on that list
//! evaluates to, by the works after it, and what a transition of the machine preserves. This crate depends on
//! `dscript_eval_meaning`, in whose words it is defined; the transitions are in the crates above it.
#![tactic(auto)]

mod captured;
mod code;
mod codes;
mod frame;
mod items;
mod lookups;
mod machine;
mod made;
mod nodes;
mod outcomes;
mod own;
mod status;
mod stop;
mod work;

pub use code::Code;
pub use codes::codes_of;
pub use frame::Frame;
pub use items::{add_field, add_value, item_at, item_ref, push_item, shared_items};
pub use lookups::{const_at, kind_at, path_of};
pub use machine::Machine;
pub use made::{directory_of, function_at, object_value, text_of};
pub use nodes::{element_parts, expr_cost, hole_parts, operand_parts, stmt_cost};
pub use outcomes::stop_of;
pub use own::first_of;
pub use status::{Status, all_waiting, set_status, status_at};
pub use stop::Stop;
pub use work::{CallWork, Callback, Callbacks, ExprWork, Literal, StmtWork, Use, Work};
