//! Types as data that is shared.
//!
//! A type is a list of members in their order, with the number of its nodes beside it. This crate makes types within the
//! limit, joins them, compares them and tells whether one fits another. It depends on `dscript_types_meaning`, which
//! says what all this means, and on `dscript_types_values` for the law that types of one code are equal. It carries the
//! promise that each of these calls answers as defined.
#![tactic(auto)]

mod fitting;
mod members;
mod objects;
mod order;
mod types;
mod unions;

pub use fitting::{fits, is_of_kinds};
pub use members::{can_be_list, is_list, is_list_type, is_object, may_be_alike};
pub use objects::{field_named, put_field, put_fields, spread_fields, write_fields};
pub use types::{Field, Fields, Member, Type};
pub use unions::{
    if_optional, items_of, join, join_all, undefined_type, union_of, with_undefined,
    without_undefined,
};
