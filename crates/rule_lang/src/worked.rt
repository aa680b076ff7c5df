//! The definitions computed on worked values: empty functions whose contracts are the values.

ghost use Rattle.std.specs.Prelude.{◌≡◌, [], ◌∷◌, Some, None, Ok, Err, false, codes, replicate, pos, negsuc};
ghost use Rattle.bar_windows.specs.declared.spec.Func.TheVariants as func;
ghost use Rattle.bar_windows.specs.declared.spec.WindowSpec.{WindowSpec};
ghost use Rattle.rule_lang.specs.declared.fault.Want.TheVariants.{Truth, Number};
ghost use Rattle.rule_lang.specs.declared.fault.RuleError.TheVariants as error;
ghost use Rattle.rule_lang.specs.declared.token.Name.TheVariants as name;
ghost use Rattle.rule_lang.specs.declared.token.Arithmetic.TheVariants.{Plus, Minus, Times, Over};
ghost use Rattle.rule_lang.specs.declared.token.Comparison.TheVariants.{Less, Greater, Equal, Unequal};
ghost use Rattle.rule_lang.specs.declared.view.View.{View};
ghost use Rattle.rule_lang.specs.Tree.{number, named, window, minus, arithmetic, not, and, or, compare, condition, amount};
ghost use Rattle.rule_lang.specs.Reading.{reading};
ghost use Rattle.rule_lang.specs.Values.{computed, number_of, truth_of};

// `1 - 2 - 3` takes the first two as one operand, `*` binds closer than `+`, and comparisons closer than `and`.
fn worked_trees()
    ensures left { reading (codes "1 - 2 - 3") Number ≡ Ok (amount (arithmetic Minus (arithmetic Minus
        (number (pos 10000)) (number (pos 20000))) (number (pos 30000)))) }
    ensures closer { reading (codes "1+2.5*-cash") Number ≡ Ok (amount (arithmetic Plus (number (pos 10000))
        (arithmetic Times (number (pos 25000)) (minus (named name.Cash))))) }
    ensures rule { reading (codes "close > sma(4) and position == 0") Truth ≡ Ok (condition (and
        (compare Greater (named name.Close) (window (record { func = func.Sma; length = 4 })))
        (compare Equal (named name.Position) (number (pos 0))))) }
    ensures denial { reading (codes "not 1<2 or 3<4") Truth ≡ Ok (condition (or
        (not (compare Less (number (pos 10000)) (number (pos 20000))))
        (compare Less (number (pos 30000)) (number (pos 40000))))) }
{}

// Faults of each round, and of an earlier round before those of a later one.
fn worked_faults()
    ensures unknown { reading (codes "close > > foo") Truth ≡ Err (error.Token, 10) }
    ensures places { reading (codes "close > 1.23456") Truth ≡ Err (error.Number, 8) }
    ensures at_end { reading (codes "close >") Truth ≡ Err (error.Syntax, 7) }
    ensures length { reading (codes "sma(1001)") Number ≡ Err (error.Number, 4) }
    ensures levels { reading (replicate 33 40) Truth ≡ Err (error.Depth, 32) }
    ensures operand { reading (codes "close + (1 < 2)") Truth ≡ Err (error.WrongType, 6) }
    ensures kind { reading (codes "close") Truth ≡ Err (error.WrongType, 0) }
{}

// Products and quotients are cut toward zero both ways, and a window's value is the one at its place in the text.
fn worked_values()
    ensures product { computed Times (negsuc 14998) (pos 15000) ≡ Some (negsuc 22497) }
    ensures quotient { computed Over (negsuc 9999) (pos 30000) ≡ Some (negsuc 3332) }
    ensures zero { computed Over (pos 10000) (pos 0) ≡ None }
    ensures place { (view : View) (a b : WindowSpec) → number_of view (Some (pos 5) ∷ Some (pos 7) ∷ [])
        (arithmetic Minus (window a) (window b)) ≡ Some (negsuc 1) }
    ensures missing { (view : View) (a b : WindowSpec) → truth_of view (Some (pos 5) ∷ None ∷ [])
        (compare Unequal (window a) (window b)) ≡ false }
{}
