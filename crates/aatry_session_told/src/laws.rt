//! What holds of files that differ, as a law over the definitions that the report on them is proved to follow.

ghost use Rattle.aatry_session_told.specs.DifferingLaws.{WhatDoesNotDifferIsTheSame};

/// Where no file is reported to differ, the disk has what was read under each name that is compared, of a file and no whole path: one of the same
/// bytes, or none.
pub fn what_does_not_differ()
    ensures { WhatDoesNotDifferIsTheSame }
{}
