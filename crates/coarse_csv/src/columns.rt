//! The fields of a line.

ghost use Rattle.std.specs.Prelude.{◌≡◌, ◌==◌, [], ◌∷◌, option_map, IfSome, IfNone};
ghost use Rattle.std.specs.List.{position};
ghost use Rattle.lean_fixed.specs.Fields.{fields};
ghost use Rattle.coarse_csv.specs.Columns.{columns, columns_in, first_field};

// The fields of a line that say something.
#[derive(Clone, Copy)]
pub struct Columns<'t> {
    pub symbol: &'t [u8],
    pub close: &'t [u8],
    pub volume: &'t [u8],
    pub dollars: &'t [u8],
}

// A field, and the text behind its comma.
#[derive(Clone, Copy)]
struct Split<'t> {
    field: &'t [u8],
    behind: &'t [u8],
}

// The columns of a line. `None` exactly where it has fewer than five fields.
pub fn columns_of(text: &[u8]) -> Option<Columns<'_>>
    ensures { option_map columns result ≡ columns_in (fields text.now) }
{
    let identifier = split_field(text)?;
    let symbol = split_field(identifier.behind)?;
    let close = split_field(symbol.behind)?;
    let volume = split_field(close.behind)?;
    Some(Columns {
        symbol: symbol.field,
        close: close.field,
        volume: volume.field,
        dollars: first_field(volume.behind),
    })
}

// The first of several fields. `None` where there is no comma.
fn split_field(text: &[u8]) -> Option<Split<'_>>
    ensures some { IfSome result (λ s. fields text.now ≡ s.field.now ∷ fields s.behind.now) }
    ensures none { IfNone result (fields text.now ≡ text.now ∷ []) }
{
    match comma_in(text) {
        None => None,
        Some(at) => Some(Split {
            field: &text[..at],
            behind: &text[at + 1..],
        }),
    }
}

fn first_field(text: &[u8]) -> &[u8]
    ensures { result.now ≡ first_field (fields text.now) }
{
    match split_field(text) {
        None => text,
        Some(split) => split.field,
    }
}

fn comma_in(text: &[u8]) -> Option<usize>
    ensures { result ≡ position (λ b. b == 44) text.now }
{
    text.iter().position(|byte| *byte == b',')
}
