//! The definition of a file's lines, computed on small files.
ghost use Rattle.std.specs.Prelude.{◌≡◌, [], ◌∷◌, ◌++◌, codes, replicate};
ghost use Rattle.line_source.specs.Lines.{lines, line_of, past_blank, TextLine, BlankLine, LongLine, ManyLine};

/// Without a last LF, with CRs, blank, of a lone CR, of an LF alone, and empty.
pub fn small_files()
    ensures unended { lines (codes "a\nbc")
        ≡ (1, TextLine (codes "a")) ∷ (2, TextLine (codes "bc")) ∷ [] }
    ensures ended { lines (codes "a\nbc\n")
        ≡ (1, TextLine (codes "a")) ∷ (2, TextLine (codes "bc")) ∷ [] }
    ensures returns { lines (codes "a\r\nb\r\r")
        ≡ (1, TextLine (codes "a")) ∷ (2, TextLine (codes "b\r")) ∷ [] }
    ensures blank { lines (codes "a\n\n\r\nb\n")
        ≡ (1, TextLine (codes "a")) ∷ (2, BlankLine) ∷ (3, BlankLine) ∷ (4, TextLine (codes "b")) ∷ [] }
    ensures passed { past_blank (lines (codes "\n\r\nb\n")) ≡ (3, TextLine (codes "b")) ∷ [] }
    ensures lone { lines (codes "\r") ≡ (1, BlankLine) ∷ [] }
    ensures end_alone { lines (codes "\n") ≡ (1, BlankLine) ∷ [] }
    ensures empty { lines [] ≡ [] }
{}

/// 256 bytes before the LF are a text, its CR counted, and 257 are too long; line 10,000,001 is one too many.
pub fn limits()
    ensures full { line_of 10_000_000 (replicate 255 97 ++ 13 ∷ []) ≡ TextLine (replicate 255 97) }
    ensures long { line_of 10_000_000 (replicate 256 97 ++ 13 ∷ []) ≡ LongLine }
    ensures many { line_of 10_000_001 (replicate 300 97) ≡ ManyLine }
    ensures blank { line_of 10_000_001 [] ≡ ManyLine }
{}

/// A daily file of two rows: cut behind the first byte of its second, and with a CR and a blank line and without a last LF.
pub fn daily_files()
    ensures cut { lines (codes "20131007 00:00,1672000,1680000,1670000,1675000,1234\n2")
        ≡ (1, TextLine (codes "20131007 00:00,1672000,1680000,1670000,1675000,1234"))
        ∷ (2, TextLine (codes "2")) ∷ [] }
    ensures other { lines (codes "20131007 00:00,1672000,1680000,1670000,1675000,1234\r\n"
        ++ codes "\n20131008 00:00,1675000,1676000,1650000,1652000,2000")
        ≡ (1, TextLine (codes "20131007 00:00,1672000,1680000,1670000,1675000,1234"))
        ∷ (2, BlankLine)
        ∷ (3, TextLine (codes "20131008 00:00,1675000,1676000,1650000,1652000,2000")) ∷ [] }
{}
