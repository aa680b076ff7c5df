//! How many fields a line has. It is asked only of a line that gives no row.

ghost use Rattle.std.specs.Prelude.{◌≡◌, ◌<◌, ◌==◌, if◌then◌else◌, nat_le, length, count_by};
ghost use Rattle.lean_fixed.specs.Fields.{fields};

use lean_items::Reason;

// The reason of a line that does not begin with a time and a comma.
pub fn without_start(text: &[u8]) -> Reason
    ensures { result
        ≡ (if nat_le 6 (length (fields text.now)) then Reason.Time else Reason.Fields) }
{
    if has_fields(text, 6) {
        Reason::Time
    } else {
        Reason::Fields
    }
}

// Whether the text has at least so many fields.
pub fn has_fields(text: &[u8], least: usize) -> bool
    requires { 0 < least }
    ensures { result ≡ nat_le least (length (fields text.now)) }
{
    comma_count(text) >= least - 1
}

fn comma_count(text: &[u8]) -> usize
    ensures { result ≡ count_by (λ b. b == 44) text.now }
{
    text.iter().filter(|byte| **byte == b',').count()
}
