//! A strategy as a file that a user can read: the days and the cash of a run, its costs, its securities and universe, and
//! the rules by which it trades. Reading a file gives its plan or its first fault, exactly; and what a rule asks for, for
//! one security, are exactly the commands of the definition.
#![tactic(auto)]

mod asking;
mod fault;
mod key;
pub mod laws;
mod lists;
mod plan;
mod rule;
mod rule_texts;
mod security;
mod settings;
mod table;
mod text;
mod universe;
mod values;
mod worked;

pub use asking::{RuleView, requests};
pub use fault::{Part, PlanFault};
pub use key::KeyText;
pub use lists::{Rules, Securities};
pub use plan::Plan;
pub use rule::{Action, Rule};
pub use security::Security;
pub use universe::UniversePlan;
