//! Texts that are written as lines are read back. Each law is the contract of a function that does nothing.
ghost use Rattle.std.specs.Prelude.{◌≡◌, ℕ, ◌≤◌, true, List, length};
ghost use Rattle.std.specs.List.{All};
ghost use Rattle.line_source.specs.Lines.{raw_lines, lines};
ghost use Rattle.line_source.specs.Written.{has_no_lf, IsText, written, text_lines};

/// The lines of texts with an LF behind each are these texts. As far as nothing is looked at in a line, any texts without
/// an LF may be written so. Texts that a line may have, as many as a file may have lines, are read with their numbers.
pub fn texts_are_their_lines()
    ensures raw { (texts : List (List ℕ)) → All (λ text. has_no_lf text ≡ true) texts
        → raw_lines (written texts) ≡ texts }
    ensures numbered { (texts : List (List ℕ)) → All IsText texts → length texts ≤ 10_000_000
        → lines (written texts) ≡ text_lines 1 texts }
{}
