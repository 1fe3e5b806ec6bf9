//! What a walk does not change.

use dscript_names_scopes::{Site, World};
use std::alloc::Global;

/// The names of the workspace, and where in it a walk is.
#[derive(Drop)]
pub struct Scene<'a> {
    pub alloc: Global,
    pub world: &'a World,
    pub site: Site<'a>,
}
