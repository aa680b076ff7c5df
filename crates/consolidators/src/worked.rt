//! Worked values of the definition: bars of 20131007 in buckets of five minutes, of an hour and of a day.

ghost use Rattle.std.specs.Prelude.{◌≡◌, true, false, pos, negsuc, [], ◌∷◌};
ghost use Rattle.consolidators.specs.Buckets.{bucket_at, given, not_given};
ghost use Rattle.consolidators.specs.Sample.{sample};

// a bar that ends its bucket after a gap completes both buckets at once
fn two_buckets_at_once()
    ensures first { given 5 (sample 600 601 100 101 99 100 10 true ∷ []) (pos 23019001) ≡ [] }
    ensures open { not_given 5 (sample 600 601 100 101 99 100 10 true ∷ []) ≡ sample 600 605 100 101 99 100 10 true ∷ [] }
    ensures second { given 5 (sample 600 601 100 101 99 100 10 true ∷ sample 609 610 102 103 102 103 4 true ∷ []) (pos 23019010)
        ≡ sample 600 605 100 101 99 100 10 true ∷ sample 605 610 102 103 102 103 4 true ∷ [] }
    ensures none { not_given 5 (sample 600 601 100 101 99 100 10 true ∷ sample 609 610 102 103 102 103 4 true ∷ []) ≡ [] }
{}

// the bars of a bucket make one: the first opening, the extremes, the last closing, the sum, and real where one is
fn bars_of_a_bucket()
    ensures hour { given 60 (sample 570 600 100 104 98 101 7 false ∷ sample 600 601 102 103 99 102 0 false
        ∷ sample 630 660 101 105 100 104 5 true ∷ []) (pos 23019060)
        ≡ sample 600 660 102 105 99 104 5 true ∷ [] }
    ensures earlier { given 60 (sample 570 600 100 104 98 101 7 false ∷ sample 600 601 102 103 99 102 0 false
        ∷ sample 630 660 101 105 100 104 5 true ∷ []) (pos 23019000)
        ≡ sample 540 600 100 104 98 101 7 false ∷ [] }
    ensures day { not_given 1440 (sample 570 571 100 104 98 101 7 true ∷ sample 600 601 102 103 99 102 2 true ∷ [])
        ≡ sample 0 1440 100 104 98 102 9 true ∷ [] }
{}

// buckets reach back before 1970
fn buckets_of_moments()
    ensures zero { bucket_at 5 (pos 4) ≡ pos 0 }
    ensures next { bucket_at 5 (pos 5) ≡ pos 1 }
    ensures before { bucket_at 5 (negsuc 0) ≡ negsuc 0 }
    ensures earlier { bucket_at 5 (negsuc 5) ≡ negsuc 1 }
{}
