//! What holds of all that pips can produce.
ghost use Rattle.std.specs.Prelude.{◌≡◌, ◌↔◌, [], ℕ, true};
ghost use Rattle.bx_tree.specs.Paths.{Atoms};
ghost use Rattle.pip_model_types.specs.declared.pip.PipKind.{PipKind};
ghost use Rattle.pip_model.specs.Edges.{Produces};
ghost use Rattle.violations.specs.Producing.{produces_unseen};

/// Where no directory is taken, a pip can produce a path by an unseen output exactly where it can produce
/// it.
pub fn unseen_is_produced()
    ensures { (j : ℕ) (path : Atoms) (kind : PipKind)
        → (produces_unseen [] j path kind ≡ true) ↔ Produces path kind }
{}
