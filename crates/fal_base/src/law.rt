//! The laws of trees.

ghost use Rattle.std.specs.Prelude.{ℕ, List};
ghost use Rattle.fal_base.specs.Commits.{Commit, tree_at, AreLegal};
ghost use Rattle.fal_base.specs.Tree.{IsWellFormed};

/// After each number of legal commits the tree is well formed: its keys rise, the root is a directory, each other key has the number of a
/// directory as its parent, and numbers differ.
pub fn trees_are_well_formed()
    ensures { (commits : List Commit) (k : ℕ) → AreLegal commits → IsWellFormed (tree_at commits k) }
{}
