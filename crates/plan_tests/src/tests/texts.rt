//! Plans and faults as text.

use lean_fixed::Resolution;
use rule_strategy::{Action, KeyText, Part, Plan, PlanFault, Rule, Security, UniversePlan};
use std::alloc::Global;
use std::fmt::Write;
use std::str;
use std::test::Fail;
use test_words::{error_word, kind_word};

/// The plan that a file is, or its first fault.
pub(crate) fn plan_text(alloc: Global, file: &str) -> Result<String, Fail> {
    match Plan::read(alloc, file.as_bytes()) {
        Ok(plan) => text_of(alloc, &plan),
        Err(fault) => fault_text(alloc, &fault),
    }
}

fn text_of(alloc: Global, plan: &Plan) -> Result<String, Fail> {
    let mut out = String::new(alloc);
    write_settings(plan, &mut out)?;
    for security in &plan.securities.0 {
        write_security(security, &mut out)?;
    }
    if let Some(universe) = &plan.universe {
        write_universe(universe, &mut out)?;
    }
    for rule in &plan.rules.0 {
        write_rule(rule, &mut out)?;
    }
    Ok(out)
}

fn write_settings(plan: &Plan, out: &mut String) -> Result<(), Fail> {
    let window = &plan.window;
    write!(out, "{} {} {} ", window.first.0, window.last.0, plan.cash.0)?;
    let costs = &plan.costs;
    write!(out, "{} {} ", plan.leverage, costs.per_share.0)?;
    write!(out, "{} {}", costs.least.0, costs.slip)?;
    Ok(())
}

fn write_security(security: &Security, out: &mut String) -> Result<(), Fail> {
    let symbol = str::from_utf8(security.symbol.bytes())?;
    write!(out, " {symbol}")?;
    write_bars(security.resolution, security.fill, security.period, out)
}

fn write_bars(
    resolution: Resolution,
    fill: bool,
    period: Option<u32>,
    out: &mut String,
) -> Result<(), Fail> {
    let word = resolution_word(resolution);
    write!(out, ":{word}:{fill}:")?;
    match period {
        None => out.push('-')?,
        Some(minutes) => write!(out, "{minutes}")?,
    }
    Ok(())
}

fn resolution_word(resolution: Resolution) -> &'static str {
    match resolution {
        Resolution::Minute => "minute",
        Resolution::Hour => "hour",
        Resolution::Daily => "daily",
    }
}

fn write_universe(universe: &UniversePlan, out: &mut String) -> Result<(), Fail> {
    out.push_str(" universe")?;
    write_bars(universe.resolution, universe.fill, universe.period, out)?;
    let rule = &universe.rule;
    write!(out, ":{}:{}", rule.top, rule.min_price.0)?;
    write!(out, ":{}:{}", rule.min_volume.0, rule.min_dollars)?;
    Ok(())
}

fn write_rule(rule: &Rule, out: &mut String) -> Result<(), Fail> {
    match &rule.symbol {
        None => out.push_str(" any")?,
        Some(symbol) => write!(out, " {}", str::from_utf8(symbol.bytes())?)?,
    }
    let word = action_word(&rule.action);
    let windows = rule.when.windows().len();
    write!(out, ":{word}:{windows}")?;
    Ok(())
}

fn action_word(action: &Action) -> &'static str {
    match action {
        Action::Order(kind, _, _, _) => kind_word(*kind),
        Action::Update(_) => "update",
        Action::Cancel => "cancel",
    }
}

fn fault_text(alloc: Global, fault: &PlanFault) -> Result<String, Fail> {
    match fault {
        PlanFault::Toml => Ok(String::from_str(alloc, "toml")?),
        PlanFault::Missing(key) => key_text(alloc, "missing", key),
        PlanFault::Unknown(key) => key_text(alloc, "unknown", key),
        PlanFault::Value(key) => key_text(alloc, "value", key),
        PlanFault::Limit(key) => key_text(alloc, "limit", key),
        PlanFault::Rule(number, part, error, at) => {
            let part = part_word(*part);
            let error = error_word(*error);
            Ok(format!(in alloc; "rule {number} {part} {error} {at}")?)
        }
        PlanFault::NoMemory => Ok(String::from_str(alloc, "no memory")?),
    }
}

fn key_text(alloc: Global, word: &str, key: &KeyText) -> Result<String, Fail> {
    let key = str::from_utf8(key.bytes())?;
    Ok(format!(in alloc; "{word} {key}")?)
}

fn part_word(part: Part) -> &'static str {
    match part {
        Part::When => "when",
        Part::Quantity => "quantity",
        Part::Price => "price",
        Part::Limit => "limit",
    }
}
