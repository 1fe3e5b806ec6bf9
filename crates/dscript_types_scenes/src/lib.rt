//! What types are found where an expression stands.
//!
//! A scene is a place in a program with the locals that are seen there. This crate has what typing at a scene comes to, with
//! all that needs no look into the parts of an expression: what names, conditions, holes, members and declared functions come
//! to, the scenes of bodies, and the rules that expressions must meet where they stand. It depends on
//! `dscript_types_meaning` for these rules, on `dscript_types_known` for what is known, and on `dscript_types_rows` and
//! `dscript_types_notes` for operators, members, calls and annotations. It carries the promise that each of its answers is
//! what the rules say at the scene, however many declarations may be looked into.
#![tactic(auto)]

mod conditions;
mod ends;
mod found;
mod functions;
mod given;
mod holes;
mod locals;
mod names;
mod nodes;
mod rules;
mod scene;
mod subjects;
mod walk;

pub use conditions::{following, narrowed, outcome_of};
pub use ends::may_end;
pub use found::{Seen, Subject, Typing};
pub use functions::{
    Inside, above_body, annotated, callback_member, declared_answer, function_type, inferred,
    member_answer,
};
pub use given::given_to;
pub use holes::{Allowed, after_holes, first_hole, letter_kind, may_hold};
pub use locals::{
    Added, callback_scene, function_locals, loop_hold, loop_items, with_added, without_value,
};
pub use names::named;
pub use nodes::{Shape, element_parts, hole_parts, note_of, operand_parts, other_of, shape_of};
pub use rules::{fit_of, fits_note, fits_variable, loop_rule};
pub use scene::{Scene, below, place_of};
pub use subjects::{is, member_of, of_kind, only, whole};
pub use walk::{Rule, Walk};
