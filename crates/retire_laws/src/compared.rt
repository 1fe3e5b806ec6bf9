//! What is compared by digest in a build, as one list.
ghost use Rattle.std.specs.Prelude.{ℕ, List};
ghost use Rattle.bx_tree.specs.Members.{Has};
ghost use Rattle.bx_tree.specs.Trees.{Files};
ghost use Rattle.bx_io.specs.Holdings.{Holdings};
ghost use Rattle.pip_model_types.specs.declared.pip.Pip.{Pip};
ghost use Rattle.run_record.specs.Collisions.{NoCollision};
ghost use Rattle.retire_compared.specs.Compared.{Compared};
ghost use Rattle.retire_laws.specs.ComparedList.{compared_list};

/// What is compared in a build is in one list. So where no two different members of that list have one digest,
/// there is no hash collision among what is compared.
pub fn what_is_compared_is_listed()
    ensures listed { (pips : List Pip) (tree : Files) (budget : ℕ) (S : Holdings) (x : List ℕ)
        → Compared pips tree budget S x → Has (compared_list pips tree budget S) x }
    ensures apart { (pips : List Pip) (tree : Files) (budget : ℕ) (S : Holdings)
        → NoCollision (Has (compared_list pips tree budget S)) → NoCollision (Compared pips tree budget S) }
{}
