//! The JSON tree of an hours file, and the market's entry in it.
ghost use Rattle.std.specs.Prelude.{◌≡◌, option_map};
ghost use Rattle.serde_json.specs.View.{view};
ghost use Rattle.exchange_hours.specs.HoursFile.{json_of, market_entry, text_at, IsTree};

use crate::fault::HoursFault;
use serde_json::Value;
use std::alloc::Global;
use std::str;

/// The value that the bytes are in JSON.
#[tactic(auto, using(crate::proofs::TextLemmas::utf8_tests))]
pub(crate) fn read_tree(alloc: Global, bytes: &[u8]) -> Result<Value, HoursFault>
    ensures { IsTree (json_of bytes.now) result }
{
    let Ok(text) = str::from_utf8(bytes) else {
        return Err(HoursFault::Json);
    };
    match Value::from_str(alloc, text) {
        Ok(tree) => Ok(tree),
        Err(error) => Err(if error.is_memory() {
            HoursFault::NoMemory
        } else {
            HoursFault::Json
        }),
    }
}

/// The entry of a market. `None` exactly where the tree has none that is an object.
pub(crate) fn market_entry<'t>(tree: &'t Value, market: &str) -> Option<&'t Value>
    ensures { option_map (λ v. view v.now) result ≡ market_entry market.now (view tree.now) }
{
    let entry = tree.get("entries")?.get(market)?;
    if entry.is_object() { Some(entry) } else { None }
}

/// The text that an object has under a name. `None` exactly where there is none, or the value is no object.
pub(crate) fn text_at<'v>(value: &'v Value, name: &str) -> Option<&'v str>
    ensures { option_map (λ s. s.now) result ≡ text_at name.now (view value.now) }
{
    match value.get(name) {
        Some(member) => member.as_str(),
        None => None,
    }
}
