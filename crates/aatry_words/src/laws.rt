//! What holds of times, as laws over the definitions that the calls are proved to follow.

ghost use Rattle.std.specs.Prelude.{◌≡◌, ◌<◌, ℕ};
ghost use Rattle.aatry_words.specs.Moments.{IsMoment, moment_of, seconds_to};
ghost use Rattle.aatry_words.specs.Numbers.{end_of_times};

/// The moment by which a time is printed is one that the calendar and the clock have, and it is so many seconds after the start of 1970.
pub fn what_moments_are()
    ensures is { (seconds : ℕ) → seconds < end_of_times → IsMoment (moment_of seconds) }
    ensures seconds { (seconds : ℕ) → seconds < end_of_times → seconds_to (moment_of seconds) ≡ seconds }
{}
