//! How many lines are worked at once, for how long a read may go on, and how many replies are kept.
ghost use Rattle.std.specs.Prelude.{◌≡◌, ◌<◌, option_map};
ghost use Rattle.std.specs.NonZero.{non_zero_u32_get, non_zero_u64_get};

use gd_words::verbs::ReplyCount;
use std::num::{NonZeroU32, NonZeroU64};

/// By how many workers the lines of a round are run, how many steps a slice of a read may take, and
/// how many replies each session keeps, if they are kept.
#[derive(Clone, Copy, Debug, PartialEq, Eq)]
pub struct Pace {
    pub workers: NonZeroU32,
    pub budget: NonZeroU64,
    pub cache: Option<NonZeroU32>,
}

/// So many replies, as a number that is not 0.
fn entries(count: ReplyCount) -> NonZeroU32
    ensures { non_zero_u32_get result ≡ count }
{
    match NonZeroU32::new(count.replies()) {
        Some(entries) => entries,
        None => unreachable!(),
    }
}

/// So many replies, if they are kept, as a number that is not 0.
fn entries_of(cache: Option<ReplyCount>) -> Option<NonZeroU32>
    ensures { option_map (λ n. n.value) result ≡ cache }
{
    match cache {
        Some(count) => Some(entries(count)),
        None => None,
    }
}

impl Pace {
    /// The pace of so many workers, slices of so many steps and so many replies, if they are kept;
    /// 1 in place of no workers, and of no steps.
    pub fn new(workers: u32, steps: u32, cache: Option<ReplyCount>) -> Pace
        ensures workers { 0 < workers → non_zero_u32_get result.workers ≡ workers }
        ensures budget { 0 < steps → non_zero_u64_get result.budget ≡ steps }
        ensures cache { option_map (λ n. n.value) result.cache ≡ cache }
    {
        Pace {
            workers: NonZeroU32::new(workers).unwrap_or(NonZeroU32::MIN),
            budget: NonZeroU64::new(u64::from(steps)).unwrap_or(NonZeroU64::MIN),
            cache: entries_of(cache),
        }
    }
}
