ghost use Rattle.std.specs.Prelude.{◌≡◌, ◌<◌, length, slice_index, position, option_map, IfSome};
ghost use Rattle.report_lines.specs.Words.{is_space, spaced, cut};

/// The text before the first space, and that behind it.
pub fn cut(text: &[u8]) -> Option<(&[u8], &[u8])>
    ensures value { option_map (λ parts. (parts.0.now, parts.1.now)) result ≡ cut text.now }
    ensures joined { IfSome result (λ parts. spaced parts.0.now parts.1.now ≡ text.now) }
{
    let at = space_in(text)?;
    Some((&text[..at], &text[at + 1..]))
}

fn space_in(text: &[u8]) -> Option<usize>
    ensures value { result ≡ position is_space text.now }
    ensures found { IfSome result (λ i. (i < length text.now) × (slice_index text.now i ≡ 32)) }
{
    text.iter().position(|byte| *byte == b' ')
}
