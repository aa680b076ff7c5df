use crate::{Rule, Security};
use std::marker::Model;

/// The securities of a plan, in the order of its file. Contracts see the list.
#[derive(Drop)]
pub struct Securities(pub Vec<Security>);

impl Model for Securities {
    ghost use Rattle.std.specs.Prelude.{List};
    ghost use Rattle.rule_strategy.specs.declared.security.Security.{Security};

    ghost Value = { List Security };

    ghost view = { λ s. s.0.items };
}

/// The rules of a plan, in the order of its file. Contracts see the list.
#[derive(Drop)]
pub struct Rules(pub Vec<Rule>);

impl Model for Rules {
    ghost use Rattle.std.specs.Prelude.{List};
    ghost use Rattle.std.specs.Coded.{codes};
    ghost use Rattle.rule_strategy.specs.declared.rule.Rule.{Rule};
    ghost use Rattle.rule_strategy.specs.contracts.rule.Rule as the_rule;

    ghost Value = { List Rule };

    ghost coded = { Prim.hlevel (codes, the_rule.the_row.coded) };

    ghost view = { λ r. r.0.items };
}
