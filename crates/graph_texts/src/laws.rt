//! What holds of all keys, listings and entries.
ghost use Rattle.std.specs.Prelude.{◌≡◌, ℕ, List};
ghost use Rattle.bx_tree.specs.Paths.{Atoms};
ghost use Rattle.bx_tree.specs.Trees.{Files};
ghost use Rattle.dscript_program.specs.Workspaces.{ModuleData};
ghost use Rattle.pip_model_types.specs.declared.pip.Pip.{Pip as AnyPip};
ghost use Rattle.graph_texts.specs.Entries.{IsGraphEntry, graph_entry_text};
ghost use Rattle.graph_texts.specs.Keys.{HasKey, SaySame, key_text};
ghost use Rattle.graph_texts.specs.Listings.{ArePaths, listing_text};
ghost use Rattle.graph_texts.specs.Pips.{ArePips, pips_text};
ghost use Rattle.graph_texts.specs.declared.entry.GraphEntry.{GraphEntry as AnyEntry};

/// Keys with one text say the same.
pub fn one_key()
    ensures { (b c : ℕ) (m n : List ModuleData) (s t : Files) → HasKey b m → HasKey c n
        → key_text b m s ≡ key_text c n t → SaySame b c m n s t }
{}

/// Paths with one listing are the same.
pub fn one_listing()
    ensures { (p q : List Atoms) → ArePaths p → ArePaths q → listing_text p ≡ listing_text q → p ≡ q }
{}

/// Lists of pips with one text are the same.
pub fn pip_texts()
    ensures { (p q : List AnyPip) → ArePips p → ArePips q → pips_text p ≡ pips_text q → p ≡ q }
{}

/// Entries with one text are the same.
pub fn entry_texts()
    ensures { (d e : AnyEntry) → IsGraphEntry d → IsGraphEntry e
        → graph_entry_text d ≡ graph_entry_text e → d ≡ e }
{}
