//! The hours file and the algorithm file of a made folder.
ghost use Rattle.std.specs.Prelude.{◌≡◌, ◌<◌, ◌++◌, true, OnOk, IfOk};
ghost use Rattle.std.specs.List.{flat_map};
ghost use Rattle.lean_fixed.specs.Symbol.{is_symbol};
ghost use Rattle.data_maker.specs.Texts.{hours_text, symbol_of, settings_text, security_text, rules_text, securities, plan_text};

use lean_fixed::{NoMemory, Symbol};
use std::alloc::Global;

/// How many securities there are.
pub const SECURITIES: u64 = 16;

const HOURS: &str = "\
{
  \"entries\": {
    \"Equity-usa-[*]\": {
      \"monday\": [{\"start\": \"09:30:00\", \"end\": \"16:00:00\", \"state\": \"market\"}],
      \"tuesday\": [{\"start\": \"09:30:00\", \"end\": \"16:00:00\", \"state\": \"market\"}],
      \"wednesday\": [{\"start\": \"09:30:00\", \"end\": \"16:00:00\", \"state\": \"market\"}],
      \"thursday\": [{\"start\": \"09:30:00\", \"end\": \"16:00:00\", \"state\": \"market\"}],
      \"friday\": [{\"start\": \"09:30:00\", \"end\": \"16:00:00\", \"state\": \"market\"}]
    }
  }
}
";

const SETTINGS: &str = "\
start = \"20131007\"
end = \"20131018\"
cash = \"1000000\"
fee-per-share = \"0.005\"
fee-minimum = \"1\"
slippage = 10
";

const RULES: &str = "\
[[rules]]
when = \"sma(4) > sma(12) and position == 0 and orders == 0\"
do = \"order\"
kind = \"market\"
quantity = \"100\"
[[rules]]
when = \"sma(4) < sma(12) and position > 0\"
do = \"order\"
kind = \"market\"
quantity = \"0 - position\"
[[rules]]
when = \"position > 0 and orders == 0\"
do = \"order\"
kind = \"limit\"
quantity = \"0 - position\"
price = \"close + 1\"
[[rules]]
when = \"position == 0 and orders > 0\"
do = \"cancel\"
";

// The bytes of the hours file.
#[tactic(auto, unfolding(crate::specs::Texts::hours_text))]
pub fn hours_bytes(alloc: Global) -> Result<Vec<u8>, NoMemory>
    ensures { IfOk result (λ bytes. bytes.items ≡ hours_text) }
{
    let mut bytes = Vec::new(alloc);
    bytes.extend_from_slice(HOURS.as_bytes())?;
    Ok(bytes)
}

// The bytes of the algorithm file.
#[tactic(auto, unfolding(crate::specs::Texts::plan_text))]
pub fn plan_bytes(alloc: Global) -> Result<Vec<u8>, NoMemory>
    ensures { IfOk result (λ bytes. bytes.items ≡ plan_text) }
{
    let mut bytes = Vec::new(alloc);
    append_settings(&mut bytes)?;
    append_securities(&mut bytes)?;
    append_rules(&mut bytes)?;
    Ok(bytes)
}

#[tactic(auto, unfolding(crate::specs::Texts::settings_text))]
fn append_settings(out: &mut Vec<u8>) -> Result<(), NoMemory>
    ensures { OnOk result (out.new.items ≡ out.old.items ++ settings_text) }
{
    out.extend_from_slice(SETTINGS.as_bytes())?;
    Ok(())
}

#[tactic(auto, unfolding(crate::specs::Texts::rules_text))]
fn append_rules(out: &mut Vec<u8>) -> Result<(), NoMemory>
    ensures { OnOk result (out.new.items ≡ out.old.items ++ rules_text) }
{
    out.extend_from_slice(RULES.as_bytes())?;
    Ok(())
}

#[tactic(auto, unfolding(crate::specs::Texts::securities))]
fn append_securities(out: &mut Vec<u8>) -> Result<(), NoMemory>
    ensures { OnOk result (out.new.items ≡ out.old.items ++ flat_map security_text securities) }
{
    for security in 0..SECURITIES {
        append_security(security, out)?;
    }
    Ok(())
}

#[tactic(auto, unfolding(crate::specs::Texts::security_text))]
fn append_security(security: u64, out: &mut Vec<u8>) -> Result<(), NoMemory>
    requires { security < 16 }
    ensures { OnOk result (out.new.items ≡ out.old.items ++ security_text security) }
{
    let symbol = symbol_of(security);
    out.extend_from_slice(b"[[securities]]\nsymbol = \"")?;
    out.extend_from_slice(symbol.bytes())?;
    out.extend_from_slice(b"\"\nresolution = \"minute\"\nperiod = 15\n")?;
    Ok(())
}

// The symbol of a security: an S and its number.
pub fn symbol_of(security: u64) -> Symbol
    requires { security < 16 }
    ensures { result ≡ symbol_of security }
{
    if security < 10 {
        symbol_in(&[b'S', b'0' + security as u8])
    } else {
        symbol_in(&[b'S', b'1', b'0' + (security - 10) as u8])
    }
}

// The symbol that some bytes are.
fn symbol_in(bytes: &[u8]) -> Symbol
    requires { is_symbol bytes.now ≡ true }
    ensures { result ≡ bytes.now }
{
    match Symbol::read(bytes) {
        Some(symbol) => symbol,
        None => unreachable!(),
    }
}
