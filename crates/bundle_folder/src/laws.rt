//! Laws of folders and their texts.

ghost use Rattle.std.specs.Prelude.{◌≡◌, ◌↔◌, ℕ, List, [], Option, Some, Contains};
ghost use Rattle.bx_tree.specs.Bundle.{IsBundle};
ghost use Rattle.bx_tree.specs.Trees.{Files};
ghost use Rattle.bundle_folder.specs.Folders.{Known, Node, Nodes, IsListed, with_files};
ghost use Rattle.bundle_folder.specs.Packing.{IsPack};
ghost use Rattle.bundle_folder.specs.Unpacking.{IsUnpack};
ghost use Rattle.bundle_folder.specs.declared.unpacking.Replace.TheVariants as replaces;

/// A folder has at most one text.
pub fn one_packing()
    ensures { (left_out : List (List ℕ)) (nodes : Nodes) (one other : List ℕ)
        → IsPack left_out (Some nodes) one → IsPack left_out (Some nodes) other → one ≡ other }
{}

/// What is unpacked into a folder that holds nothing is packed as the text that was unpacked.
pub fn unpacked_is_packed()
    ensures { (now : Option Nodes) (text : List ℕ) (count : ℕ)
        → IsUnpack text replaces.Nothing (Some []) now count → IsPack [] now text }
{}

/// What was packed of a folder and is unpacked into one that holds nothing is what the folder held, but for
/// what was left out.
pub fn packed_is_unpacked()
    ensures { (left_out : List (List ℕ)) (nodes : Nodes) (now : Option Nodes) (text : List ℕ) (count : ℕ)
        → IsPack left_out (Some nodes) text → IsUnpack text replaces.Nothing (Some []) now count
        → Known now (λ made. (place : List ℕ) (node : Node)
        → Contains made (place, node) ↔ IsListed left_out nodes place node) }
{}
