//! What holds of assertions, as a law over the definitions that the calls are proved to follow.

ghost use Rattle.aatry_test.specs.AssertionLaws.{DependOnSteps};

/// Where all assertions of a transcript hold, so do those of each other transcript that has the same commands and assertions, in the same order:
/// wanted replies, comments and blanks decide none.
pub fn what_assertions_depend_on()
    ensures { DependOnSteps }
{}
