//! From tokens to a tree: each rule of the grammar is a function, but `or`, `and`, `sum` and `term`, which are one loop at
//! four levels. Only what opens a level calls the rules anew, and so the calls are as deep as the levels that are open.

ghost use Rattle.std.specs.Prelude.{◌≡◌, ◌<◌, Ok, IfOk, IfSome, length};
ghost use Rattle.bar_windows.specs.Kept.{IsLength};
ghost use Rattle.rule_lang.specs.Grammar as spec;
ghost use Rattle.rule_lang.specs.Nodes.{ReadsPart, ReadsPlain};

use crate::node::{Amount, Part, binary, minus, not};
use crate::token::{Arithmetic, Context, Delimiter, Kind, Level, Op, Token};
use crate::{RuleError, RuleFault};
use bar_windows::{Func, WindowSpec};
use std::alloc::Global;

/// The most levels that may be open at a place.
const MOST_LEVELS: u32 = 32;

/// The greatest length of a window.
const MOST_LENGTH: u64 = 1_000;

/// The tokens that are still to be read, and the windows of those that were.
#[derive(Drop)]
pub struct Reader<'t> {
    pub alloc: Global,
    pub rest: &'t [Token],
    pub windows: Vec<WindowSpec>,
}

impl Reader<'_> {
    #[tactic(auto, unfolding(crate::specs::Grammar::next))]
    fn next(&mut self) -> Result<Token, RuleFault>
        ensures { ReadsPlain spec.next self.old self.new result }
    {
        let Some((first, others)) = self.rest.split_first() else {
            return Err(RuleFault::At(RuleError::Syntax, 0));
        };
        self.rest = others;
        Ok(*first)
    }

    #[tactic(auto, unfolding(crate::specs::Grammar::expect))]
    fn expect(&mut self, delimiter: Delimiter) -> Result<Token, RuleFault>
        ensures { ReadsPlain (spec.expect delimiter) self.old self.new result }
    {
        let token = self.next()?;
        if is_delimiter(delimiter, token.kind) {
            Ok(token)
        } else {
            Err(RuleFault::At(RuleError::Syntax, token.at))
        }
    }

    // An operator of a level, if one is next, and its place.
    #[tactic(auto, unfolding(crate::specs::Grammar::sign, crate::specs::Grammar::taken))]
    fn sign(&mut self, level: Level) -> Option<(Op, u32)>
        ensures reads { ReadsPlain (spec.sign level) self.old self.new (Ok result) }
        ensures taken { IfSome result (λ _. length self.new.rest.now < length self.old.rest.now) }
    {
        let (first, others) = self.rest.split_first()?;
        let sign = sign_of(level, first.kind, first.at)?;
        self.rest = others;
        Some(sign)
    }

    // The place of a `not`, if one is next.
    #[tactic(auto, unfolding(crate::specs::Grammar::not_sign, crate::specs::Grammar::taken))]
    fn not_sign(&mut self) -> Option<u32>
        ensures { ReadsPlain spec.not_sign self.old self.new (Ok result) }
    {
        let (first, others) = self.rest.split_first()?;
        let at = place_of_not(first.kind, first.at)?;
        self.rest = others;
        Some(at)
    }

    // The length of a window.
    #[tactic(auto, unfolding(crate::specs::Grammar::window_length))]
    fn window_length(&mut self) -> Result<u32, RuleFault>
        ensures reads { ReadsPlain spec.window_length self.old self.new result }
        ensures length { IfOk result IsLength }
    {
        let token = self.next()?;
        match token.kind {
            Kind::Whole(length) if length >= 1 && length <= MOST_LENGTH => Ok(length as u32),
            Kind::Whole(_) | Kind::Decimal(_) => Err(RuleFault::At(RuleError::Number, token.at)),
            _ => Err(RuleFault::At(RuleError::Syntax, token.at)),
        }
    }

    // What follows the word of a function: the length of its window in brackets.
    #[tactic(auto, unfolding(crate::specs::Grammar::called, crate::specs::Tree::windows_in))]
    fn called(&mut self, func: Func) -> Result<Part, RuleFault>
        ensures { ReadsPart (spec.called func) self.old self.new result }
    {
        self.expect(Delimiter::Opening)?;
        let length = self.window_length()?;
        self.expect(Delimiter::Closing)?;
        let window = WindowSpec { func, length };
        let place = self.windows.len();
        self.windows.push(window)?;
        Ok(Part::Numeric(Ok(Amount::Window(window, place))))
    }

    // What stands inside one more level, which the token at this place opens.
    #[cycle(grammar)]
    #[tactic(auto, unfolding(crate::specs::Grammar::opened))]
    fn opened(&mut self, context: Context, at: u32, levels: u32) -> Result<Part, RuleFault>
        ensures { ReadsPart (spec.opened levels context at) self.old self.new result }
    {
        if levels == 0 {
            return Err(RuleFault::At(RuleError::Depth, at));
        }
        match context {
            Context::Brackets => self.chain(Level::Or, levels - 1),
            Context::Not => self.not(levels - 1),
            Context::Minus => self.factor(levels - 1),
        }
    }

    // What stands behind `(`, and the `)` behind it.
    #[cycle(grammar)]
    #[tactic(auto, unfolding(crate::specs::Grammar::enclosed))]
    fn enclosed(&mut self, at: u32, levels: u32) -> Result<Part, RuleFault>
        ensures { ReadsPart (spec.enclosed (spec.opened levels) at) self.old self.new result }
    {
        let inner = self.opened(Context::Brackets, at, levels)?;
        self.expect(Delimiter::Closing)?;
        Ok(inner)
    }

    #[cycle(grammar)]
    #[tactic(auto, unfolding(crate::specs::Grammar::factor, crate::specs::Tree::windows_in))]
    fn factor(&mut self, levels: u32) -> Result<Part, RuleFault>
        ensures { ReadsPart (spec.factor (spec.opened levels)) self.old self.new result }
    {
        let token = self.next()?;
        match token.kind {
            Kind::Whole(number) => Ok(Part::Numeric(Ok(Amount::Number(number as i128 * 10_000)))),
            Kind::Decimal(units) => Ok(Part::Numeric(Ok(Amount::Number(units)))),
            Kind::Name(name) => Ok(Part::Numeric(Ok(Amount::Named(name)))),
            Kind::Func(func) => self.called(func),
            Kind::Opening => self.enclosed(token.at, levels),
            Kind::Operator(Op::Compute(Arithmetic::Minus)) => {
                let inner = self.opened(Context::Minus, token.at, levels)?;
                minus(self.alloc, token.at, inner)
            }
            _ => Err(RuleFault::At(RuleError::Syntax, token.at)),
        }
    }

    // Two operands and a comparison between them, or one operand.
    #[cycle(grammar)]
    #[tactic(auto, unfolding(crate::specs::Grammar::cmp, crate::specs::Grammar::pair, crate::specs::Grammar::steps))]
    fn comparison(&mut self, levels: u32) -> Result<Part, RuleFault>
        ensures { ReadsPart (spec.cmp (spec.opened levels)) self.old self.new result }
    {
        let left = self.operand(Level::Compared, levels)?;
        match self.sign(Level::Compared) {
            None => Ok(left),
            Some((op, at)) => {
                let right = self.operand(Level::Compared, levels)?;
                binary(self.alloc, op, at, left, right)
            }
        }
    }

    #[cycle(grammar)]
    #[tactic(auto, unfolding(crate::specs::Grammar::not))]
    fn not(&mut self, levels: u32) -> Result<Part, RuleFault>
        ensures { ReadsPart (spec.not (spec.opened levels)) self.old self.new result }
    {
        match self.not_sign() {
            None => self.comparison(levels),
            Some(at) => {
                let inner = self.opened(Context::Not, at, levels)?;
                not(self.alloc, at, inner)
            }
        }
    }

    // An operand of the operators of a level.
    #[cycle(grammar)]
    #[tactic(auto, unfolding(crate::specs::Grammar::and, crate::specs::Grammar::sum, crate::specs::Grammar::term))]
    fn operand(&mut self, level: Level, levels: u32) -> Result<Part, RuleFault>
        ensures { ReadsPart (spec.operand (spec.opened levels) level) self.old self.new result }
    {
        match level {
            Level::Or => self.chain(Level::And, levels),
            Level::And => self.not(levels),
            Level::Compared => self.chain(Level::Sum, levels),
            Level::Sum => self.chain(Level::Term, levels),
            Level::Term => self.factor(levels),
        }
    }

    // Operands and the operators of a level between them: each takes all to its left as one operand.
    #[cycle(grammar)]
    fn chain(&mut self, level: Level, levels: u32) -> Result<Part, RuleFault>
        ensures { ReadsPart (spec.chain level (spec.operand (spec.opened levels) level)) self.old self.new result }
    {
        let mut left = self.operand(level, levels)?;
        while let Some((op, at)) = self.sign(level) {
            let right = self.operand(level, levels)?;
            left = binary(self.alloc, op, at, left, right)?;
        }
        Ok(left)
    }

    /// The tree of all tokens, and its windows in the list.
    #[tactic(auto, unfolding(crate::specs::Grammar::whole, crate::specs::Grammar::or))]
    pub fn whole(&mut self) -> Result<Part, RuleFault>
        ensures { ReadsPart spec.whole self.old self.new result }
    {
        let tree = self.chain(Level::Or, MOST_LEVELS)?;
        self.expect(Delimiter::End)?;
        Ok(tree)
    }
}

fn is_delimiter(delimiter: Delimiter, kind: Kind) -> bool
    ensures { result ≡ spec.is_delimiter delimiter kind }
{
    match delimiter {
        Delimiter::Opening => matches!(kind, Kind::Opening),
        Delimiter::Closing => matches!(kind, Kind::Closing),
        Delimiter::End => matches!(kind, Kind::End),
    }
}

fn is_at(level: Level, op: Op) -> bool
    ensures { result ≡ spec.is_at level op }
{
    match level {
        Level::Or => matches!(op, Op::Or),
        Level::And => matches!(op, Op::And),
        Level::Compared => matches!(op, Op::Compare(_)),
        Level::Sum => matches!(op, Op::Compute(Arithmetic::Plus | Arithmetic::Minus)),
        Level::Term => matches!(op, Op::Compute(Arithmetic::Times | Arithmetic::Over)),
    }
}

fn sign_of(level: Level, kind: Kind, at: u32) -> Option<(Op, u32)>
    ensures { result ≡ spec.sign_of level kind at }
{
    match kind {
        Kind::Operator(op) if is_at(level, op) => Some((op, at)),
        _ => None,
    }
}

fn place_of_not(kind: Kind, at: u32) -> Option<u32>
    ensures { result ≡ spec.place_of_not kind at }
{
    match kind {
        Kind::Not => Some(at),
        _ => None,
    }
}
