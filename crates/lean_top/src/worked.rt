//! The definition of what follows the last close line, computed on texts.
ghost use Rattle.std.specs.Prelude.{◌≡◌, codes};
ghost use Rattle.lean_top.specs.CloseTail.{behind_close};

/// Behind two close lines, behind none, and in front of a line without an LF.
#[tactic(auto, unfolding(crate::specs::CloseTail::behind_close))]
pub fn ends_of_reports()
    ensures last { behind_close
        (codes "20131007 16:00 close cash 9.0000 equity 9.0000\n20131008 16:00 close cash 8.0000 equity 9.0000\nend\nfees\n")
        ≡ codes "end\nfees\n" }
    ensures none { behind_close (codes "20131007 10:01 order 1 SPY canceled\nend\n")
        ≡ codes "20131007 10:01 order 1 SPY canceled\nend\n" }
    ensures open { behind_close (codes "20131008 16:00 close cash 8.0000 equity 9.0000\n20131009 16:00 close cash 8.0")
        ≡ codes "20131009 16:00 close cash 8.0" }
{}
