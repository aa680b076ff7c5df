//! The definitions computed on worked values: empty functions whose contracts are the values.

ghost use Rattle.std.specs.Prelude.{◌≡◌, ℕ, ◌++◌, [], ◌∷◌, Some, None, Ok, Err, true, List, codes, replicate, pos, negsuc};
ghost use Rattle.toml.specs.Data.{string, no_members, member};
ghost use Rattle.lean_fixed.specs.declared.resolution.Resolution.TheVariants.{Hour};
ghost use Rattle.lean_fixed.specs.declared.time.Moment.{Moment};
ghost use Rattle.lean_orders.specs.declared.desk.Command.TheVariants.{Submit, Update, Cancel};
ghost use Rattle.lean_orders.specs.declared.order.Kind.TheVariants.{Market, Limit, Stop, AtOpen, StopLimit};
ghost use Rattle.lean_orders.specs.declared.order.Resting.{Resting};
ghost use Rattle.rule_lang.specs.declared.fault.RuleError.TheVariants.{Syntax, WrongType};
ghost use Rattle.rule_lang.specs.declared.token.Comparison.TheVariants.{Less};
ghost use Rattle.rule_lang.specs.Tree.{number, compare, condition, amount};
ghost use Rattle.rule_strategy.specs.declared.asking.RuleView.{RuleView};
ghost use Rattle.rule_strategy.specs.declared.fault.Part.TheVariants as part;
ghost use Rattle.rule_strategy.specs.declared.fault.PlanFault.TheVariants as fault;
ghost use Rattle.rule_strategy.specs.declared.rule.Action.TheVariants as act;
ghost use Rattle.rule_strategy.specs.Asked.{asked_by, price_of};
ghost use Rattle.rule_strategy.specs.PlanFile.{plan};
ghost use Rattle.rule_strategy.specs.Settings.{money};
ghost use Rattle.rule_strategy.specs.Tables.{array_row, text_row};
ghost use Rattle.rule_strategy.specs.Worked.{usual_plan, array_of};

// A whole plan, with each default.
fn worked_plan()
    ensures { usual_plan (codes "[[securities]]\nsymbol='SPY'\nresolution='hour'\nperiod=120\n[[rules]]\nsymbol='SPY'\nwhen='1<2'\ndo='order'\nkind='stop-limit'\nquantity='2.5'\nprice='3'\nlimit='4'\n")
        ≡ Ok (record {
          window = record { first = record { 0 = pos 15985 }; last = record { 0 = pos 15986 } };
          cash = money 10000000;
          leverage = 2;
          costs = record { per_share = money 0; least = money 0; slip = pos 0 };
          securities = record { symbol = codes "SPY"; resolution = Hour; fill = true; period = Some 120 } ∷ [];
          universe = None;
          rules = record {
            symbol = Some (codes "SPY");
            when = condition (compare Less (number (pos 10000)) (number (pos 20000)));
            action = act.Order StopLimit (amount (number (pos 25000))) (Some (amount (number (pos 30000))))
                (Some (amount (number (pos 40000))));
          } ∷ [];
        }) }
{}

// The top table: unknown keys come before missing ones and by byte order, and a fault names the plain key, whole.
fn worked_settings()
    ensures no_toml { plan (codes "start") ≡ Err fault.Toml }
    ensures no_text { plan (255 ∷ []) ≡ Err fault.Toml }
    ensures missing { plan (codes "end = '20131008'") ≡ Err (fault.Missing (codes "start")) }
    ensures unknown { plan (codes "start = 1\nxyz = 2\nabc = 3\nZ = 4") ≡ Err (fault.Unknown (codes "Z")) }
    ensures long { plan (replicate 70 120 ++ codes " = 1") ≡ Err (fault.Unknown (replicate 70 120)) }
    ensures quoted { plan (codes "'my key' = 1") ≡ Err (fault.Unknown (codes "my key")) }
    ensures dotted { plan (codes "a.b = 1") ≡ Err (fault.Unknown (codes "a")) }
    ensures before { plan (codes "start = '20131008'\nend = '20131007'") ≡ Err (fault.Value (codes "end")) }
    ensures most { plan (codes "start = '19700102'\nend = '20241004'") ≡ Err (fault.Missing (codes "cash")) }
    ensures over { plan (codes "start = '19700102'\nend = '20241005'") ≡ Err (fault.Limit (codes "end")) }
    ensures no_cash { plan (codes "start = '20131007'\nend = '20131007'\ncash = '0'")
        ≡ Err (fault.Value (codes "cash")) }
    ensures float { usual_plan (codes "leverage = 2.0\nslippage = 1000001")
        ≡ Err (fault.Value (codes "leverage")) }
    ensures slippage { usual_plan (codes "slippage = 1000001\nfee-minimum = '1'")
        ≡ Err (fault.Value (codes "slippage")) }
{}

// Securities and the universe, in the order of the keys and not of the file.
fn worked_securities()
    ensures no_array { usual_plan (codes "[securities]\nsymbol='A'") ≡ Err (fault.Value (codes "securities")) }
    ensures no_table { usual_plan (codes "securities = [1]") ≡ Err (fault.Value (codes "securities")) }
    ensures most { array_row (codes "securities") 256 (array_of (codes "securities") 257)
        ≡ Err (fault.Limit (codes "securities")) }
    ensures divides { usual_plan (codes "securities = [{symbol='A', resolution='minute', period=7}]")
        ≡ Err (fault.Value (codes "period")) }
    ensures hours { usual_plan (codes "securities = [{symbol='A', resolution='hour', period=15}]")
        ≡ Err (fault.Value (codes "period")) }
    ensures daily { usual_plan (codes "securities = [{symbol='A', resolution='daily', period=1440}]")
        ≡ Err (fault.Value (codes "period")) }
    ensures twice { usual_plan (codes "securities = [{symbol='A', resolution='daily'}, {symbol='A'}]")
        ≡ Err (fault.Value (codes "symbol")) }
    ensures first { usual_plan (codes "universe = 1\n[[securities]]\nsymbol='A'\nresolution='weekly'")
        ≡ Err (fault.Value (codes "resolution")) }
    ensures top { usual_plan (codes "[universe]\nresolution='daily'\ntop=257")
        ≡ Err (fault.Value (codes "top")) }
{}

// Rules: first their tables, and then their expressions.
fn worked_rules()
    ensures most { array_row (codes "rules") 64 (array_of (codes "rules") 65) ≡ Err (fault.Limit (codes "rules")) }
    ensures length { text_row (codes "when") (member (codes "when") (string (replicate 1001 32)) no_members)
        ≡ Err (fault.Limit (codes "when")) }
    ensures not_taken { usual_plan (codes "rules = [{when='1<2', do='order', kind='market', quantity='1', price='2'}]")
        ≡ Err (fault.Unknown (codes "price")) }
    ensures late { usual_plan (codes "rules = [{do='cancel', price='2'}]") ≡ Err (fault.Missing (codes "when")) }
    ensures limit { usual_plan (codes "rules = [{when='<', do='order', kind='stop-limit', quantity='1', price='2'}]")
        ≡ Err (fault.Missing (codes "limit")) }
    ensures tables { usual_plan (codes "rules = [{when='1<', do='cancel'}, {when='1<2', do='order', kind='open', quantity=5}]")
        ≡ Err (fault.Value (codes "quantity")) }
    ensures in_order { usual_plan (codes "rules = [{when='1<', do='cancel'}, {when='1<2', do='order', kind='open', quantity='('}]")
        ≡ Err (fault.Rule 1 part.When Syntax 2) }
    ensures second { usual_plan (codes "rules = [{when='1<2', do='cancel'}, {when='1<2', do='order', kind='open', quantity='1<2'}]")
        ≡ Err (fault.Rule 2 part.Quantity WrongType 0) }
{}

// Quantities are cut toward zero, and no number beyond 10^18 is asked for.
#[tactic(auto, unfolding(crate::specs::Asked::asked, rule_lang::specs::Values::number_of))]
fn worked_orders()
    ensures cut { (symbol : List ℕ) (view : RuleView) (live : List Resting) → asked_by (act.Order Market (amount (number (negsuc 19998))) None None) symbol view live
        ≡ Submit view.when.at (record { symbol = symbol; kind = Market; quantity = record { 0 = negsuc 0 }; price = None; limit = None }) ∷ [] }
    ensures beyond { (symbol : List ℕ) (view : RuleView) (live : List Resting) → asked_by (act.Order Market (amount (number (pos 1000000000000000001))) None None) symbol view live
        ≡ [] }
    ensures no_price { (symbol : List ℕ) (view : RuleView) (live : List Resting) → asked_by (act.Order Limit (amount (number (pos 10000))) (Some (amount (number (negsuc 1000000000000000000)))) None) symbol view live
        ≡ [] }
{}

// An update reaches the orders that rest at a price, and a cancel all of them.
#[tactic(auto, unfolding(crate::specs::Asked::asked, rule_lang::specs::Values::number_of))]
fn worked_updates()
    ensures update { (a b c d e : Resting) (view : RuleView) → a.kind ≡ Market → b.kind ≡ Limit → c.kind ≡ Stop → d.kind ≡ AtOpen → e.kind ≡ StopLimit
        → asked_by (act.Update (amount (number (pos 5)))) [] view (a ∷ b ∷ c ∷ d ∷ e ∷ [])
        ≡ Update view.when.at b.id (price_of (pos 5)) ∷ Update view.when.at c.id (price_of (pos 5))
        ∷ Update view.when.at e.id (price_of (pos 5)) ∷ [] }
    ensures cancel { (a b : Resting) (view : RuleView) → asked_by act.Cancel [] view (a ∷ b ∷ [])
        ≡ Cancel view.when.at a.id ∷ Cancel view.when.at b.id ∷ [] }
{}
