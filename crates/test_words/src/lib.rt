//! The words for kinds of orders, causes and faults of expressions that the tables of several crates of tests have, the hours of
//! their books, and algorithm files in short.
#![tactic(auto)]

pub mod plans;

use lean_orders::{Cause, Kind};
use rule_lang::RuleError;

/// From Monday to Friday, 09:30 to 16:00.
pub const HOURS: &str = r#"{"entries":{"Equity-usa-[*]":{
"monday":[{"start":"09:30:00","end":"16:00:00","state":"market"}],
"tuesday":[{"start":"09:30:00","end":"16:00:00","state":"market"}],
"wednesday":[{"start":"09:30:00","end":"16:00:00","state":"market"}],
"thursday":[{"start":"09:30:00","end":"16:00:00","state":"market"}],
"friday":[{"start":"09:30:00","end":"16:00:00","state":"market"}]}}}"#;

/// The word for a kind of orders.
pub fn kind_word(kind: Kind) -> &'static str {
    match kind {
        Kind::Market => "market",
        Kind::Limit => "limit",
        Kind::Stop => "stop",
        Kind::AtOpen => "open",
        Kind::StopLimit => "stop-limit",
    }
}

/// The word for the cause of a refusal.
pub fn cause_word(cause: Cause) -> &'static str {
    match cause {
        Cause::Quantity => "quantity",
        Cause::NoPrice => "no-price",
        Cause::PriceForm => "price",
        Cause::BuyingPower => "buying-power",
        Cause::Unknown => "unknown",
        Cause::Closed => "closed",
    }
}

/// The word for what is wrong with an expression.
pub fn error_word(error: RuleError) -> &'static str {
    match error {
        RuleError::Token => "token",
        RuleError::Number => "number",
        RuleError::Syntax => "syntax",
        RuleError::Depth => "depth",
        RuleError::WrongType => "type",
    }
}
