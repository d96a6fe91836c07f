//! What holds of the counts of what sessions keep. The law is the contract of a function that does
//! nothing: code above cites its statement from `specs/Laws.antt`.
ghost use Rattle.gd_lookup.specs.Laws.{CountsAre};

/// From caches without any reply the counts are those of the reads that were answered.
pub fn counts_are()
    ensures { CountsAre }
{}
