//! What holds of the definitions themselves.
ghost use Rattle.std.specs.Prelude.{◌≡◌, ◌||◌, ◌==◌, false};
ghost use Rattle.std.specs.Option.{option_map_or};
ghost use Rattle.bsan_ids.specs.declared.numbers.Tag.{Tag};
ghost use Rattle.eager_tree.specs.Tree.{Links, AreLinked, is_on_path, parent_in};

/// A node is on the path of `x` where it is `x` itself, or is on the path of the parent of `x`.
pub fn path_by_parents()
    ensures { (ls : Links) (x y : Tag) → AreLinked ls → is_on_path ls x y ≡ (x.0 == y.0 || option_map_or (λ p. is_on_path ls p y) (parent_in ls x) false) }
{}
