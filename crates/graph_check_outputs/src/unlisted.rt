//! Which files lie in sealed directories without being members of them.
ghost use Rattle.std.specs.Prelude.{◌↔◌, Any, Contains, IsTrue, map};
ghost use Rattle.bx_tree.specs.FileInputs.{input_path};
ghost use Rattle.graph_check_outputs.specs.Gathered.{IsInOrder, IsLeftOut};
ghost use Rattle.graph_check_outputs.specs.Overlap.{IsUnlisted};

use bx_tree::Path;
use bx_tree_paths::{items_below, place_of};
use pip_model_types::SealDesc;

// Whether a file lies strictly below the root of a seal and is no member.
fn is_left_out(file: &Path, seal: &SealDesc) -> bool
    ensures { IsTrue result ↔ IsLeftOut seal.now file.now }
{
    if !file.is_below(&seal.root) {
        return false;
    }
    !seal.files.has_path(file)
}

// Whether one of these files lies strictly below the root of a seal and is no member. The search ends at the first,
// so that in the range of the root it takes no longer than the list of members.
fn any_left_out(files: &[Path], seal: &SealDesc) -> bool
    ensures { IsTrue result ↔ Any (IsLeftOut seal.now) files.now }
{
    files.iter().any(|file| is_left_out(file, seal))
}

// Whether the root of a seal is one of these files and no member.
fn leaves_root_out(files: &[Path], seal: &SealDesc) -> bool
    requires { IsInOrder files.now }
    ensures { IsTrue result ↔ (Contains files.now seal.now.root
        × (Contains (map input_path seal.now.files) seal.now.root → ⊥)) }
{
    if !place_of(files, &seal.root).is_some() {
        return false;
    }
    !seal.files.has_path(&seal.root)
}

// Whether some of these files lies in a sealed directory without being a member of it.
pub(crate) fn has_unlisted(files: &[Path], seal: &SealDesc) -> bool
    requires { IsInOrder files.now }
    ensures { IsTrue result ↔ Any (IsUnlisted seal.now) files.now }
{
    if any_left_out(items_below(files, &seal.root), seal) {
        return true;
    }
    leaves_root_out(files, seal)
}
