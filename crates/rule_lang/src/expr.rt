ghost use Rattle.std.specs.Prelude.{◌≡◌, ◌≤◌, length, All};
ghost use Rattle.bar_windows.specs.Kept.{IsLength};
ghost use Rattle.rule_lang.specs.Tree.{windows_of};
ghost use Rattle.rule_lang.specs.Reading.{reading, Gives};
ghost use Rattle.rule_lang.specs.Values.{number_in, truth_in};

use crate::grammar::Reader;
use crate::node::{Tree, typed};
use crate::scan::tokens;
use crate::value::{number, truth};
use crate::{RuleFault, View, Want};
use bar_windows::WindowSpec;
use std::alloc::Global;
use std::marker::Model;

/// An expression that was read. Contracts see its tree.
#[derive(Drop)]
pub struct Expr {
    tree: Tree,
    windows: Vec<WindowSpec>,
}

impl Model for Expr {
    ghost use Rattle.std.specs.Prelude.{[]};
    ghost use Rattle.std.specs.Coded.{code_by};
    ghost use Rattle.rule_lang.specs.contracts.node.Tree as the_tree;
    ghost use Rattle.rule_lang.specs.declared.node.Tree as held_tree;
    ghost use Rattle.rule_lang.specs.Tree.{Tree};
    ghost use Rattle.rule_lang.specs.Nodes.{tree_of, AddsTree};
    ghost use Rattle.rule_lang.specs.Held.{held, tree_is};

    ghost Value = { Tree };

    ghost coded = { code_by held_tree.Tree the_tree.the_row.coded held tree_of tree_is };

    ghost view = { λ e. tree_of e.tree };

    ghost invariant = { λ e. AddsTree e.tree [] e.windows.items };
}

impl Expr {
    /// The expression that a text of at most 1,000 bytes is. Faults are sought in three rounds, and the first fault of
    /// the first round that has one is the answer.
    ///
    /// 1. By place over the whole text: `Token` where no token begins or at an unknown word, `Number` at a number with
    ///    more than 18 digits before its point, or with a point and not 1 to 4 digits behind it.
    /// 2. In the order of reading: `Syntax` at the first token that can't stand there, or at the text's length; `Depth`
    ///    at the token that opens level 33; `Number` at a window's length that has a point or is not 1 to 1,000.
    /// 3. `WrongType` at the first operator that has an operand of the wrong kind, or at 0 where the whole is not of the
    ///    kind that is wanted.
    ///
    /// `NoMemory` comes for want of memory alone.
    #[tactic(auto, unfolding(crate::specs::Reading::reading))]
    pub fn read(alloc: Global, text: &[u8], want: Want) -> Result<Expr, RuleFault>
        requires { length text.now ≤ 1000 }
        ensures { Gives (λ e. e) result (reading text.now want) }
    {
        let tokens = tokens(alloc, text)?;
        let mut reader = Reader {
            alloc,
            rest: &tokens,
            windows: Vec::new(alloc),
        };
        let part = reader.whole()?;
        let tree = typed(part, want)?;
        let windows = reader.windows;
        Ok(Expr { tree, windows })
    }

    /// The windows over closes that the expression names, as they stand in its text. One that is named twice is there
    /// twice. Their lengths are from 1 to 1,000.
    pub fn windows(&self) -> &[WindowSpec]
        ensures windows { result.now ≡ windows_of self.now }
        ensures lengths { All (λ spec. IsLength spec.length) result.now }
    {
        &self.windows
    }

    /// The number that the expression is in a view, in units of 1/10000. `None` exactly where it has no value: where a
    /// window of it has none, a divisor is 0, or the result of an operation, or the product before its division, is
    /// beyond 10^38 either way. An expression that is a truth has no number.
    pub fn number(&self, view: &View) -> Option<i128>
        ensures { result ≡ number_in view.now self.now }
    {
        match &self.tree {
            Tree::Condition(_) => None,
            Tree::Amount(amount) => number(amount, view),
        }
    }

    /// Whether the expression is true in a view. A comparison with an operand that has no value is false, and so is an
    /// expression that is a number.
    pub fn truth(&self, view: &View) -> bool
        ensures { result ≡ truth_in view.now self.now }
    {
        match &self.tree {
            Tree::Condition(condition) => truth(condition, view),
            Tree::Amount(_) => false,
        }
    }
}
