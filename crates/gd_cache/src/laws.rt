//! What holds of replies that are kept. Each law is the contract of a function that does nothing:
//! code above cites its statement from `specs/Laws.antt`.
ghost use Rattle.gd_cache.specs.Laws.{KeysTell, KeptLater, AnswersAreKept};

/// One text is the key of one read.
pub fn keys_tell()
    ensures { KeysTell }
{}

/// What is kept rightly is right over all batches that begin with those over which it was.
pub fn kept_later()
    ensures { KeptLater }
{}

/// A reply line that begins as one of an answer is that of what may be kept.
pub fn answers_are_kept()
    ensures { AnswersAreKept }
{}
