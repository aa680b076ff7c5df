//! What is read has the kind that was wanted, and values over closes are those of windows that have the values over them.
//! Each law is the contract of a function that does nothing.

ghost use Rattle.std.specs.Prelude.{◌≡◌, ℕ, List, Ok};
ghost use Rattle.lean_fixed.specs.declared.money.Price.{Price};
ghost use Rattle.rule_lang.specs.declared.fault.Want.{Want};
ghost use Rattle.rule_lang.specs.declared.view.View.{View};
ghost use Rattle.rule_lang.specs.Tree.{Tree, kind_of};
ghost use Rattle.rule_lang.specs.Reading.{reading};
ghost use Rattle.rule_lang.specs.Values.{number_in, truth_in};
ghost use Rattle.rule_lang.specs.Closes.{values_over, number_over, truth_over};

/// An expression that was read gives a value of the kind that was wanted. That its operators have operands of the kinds
/// that they take is the type of the tree.
#[tactic(auto, unfolding(crate::specs::Reading::reading))]
pub fn read_is_typed()
    ensures { (text : List ℕ) (want : Want) (tree : Tree) → reading text want ≡ Ok tree → kind_of tree ≡ want }
{}

/// In a view that has the values of the windows over some closes, an expression has its value over these closes.
pub fn windows_are_over_closes()
    ensures number { (view : View) (closes : List Price) (tree : Tree) → view.windows ≡ values_over closes tree
        → number_in view tree ≡ number_over view closes tree }
    ensures truth { (view : View) (closes : List Price) (tree : Tree) → view.windows ≡ values_over closes tree
        → truth_in view tree ≡ truth_over view closes tree }
{}
