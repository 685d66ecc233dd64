//! What holds of tests, as laws over the definitions that `test` and `test_folder` are proved to follow.

ghost use Rattle.aatry_test.specs.Laws.{AcceptedPass, AllIsTold, AllIsWanted, EachHasItsReply, NothingIsReplaced};

use aa_start::FileSystem;

/// What differs is reported below the command that it answers: where each command is answered by a reply of the form that replies have, whose first
/// line alone begins one, its part has that reply. Whatever the replies are, none of their lines is left out where there is a command; and no wanted
/// line is left out.
pub fn what_parts_are()
    ensures each { EachHasItsReply }
    ensures told { AllIsTold }
    ensures wanted { AllIsWanted }
{}

/// Where a transcript is accepted, its text from then on passes, tested over the same files by the same language: by the very run that was accepted.
pub fn what_is_accepted_passes()
    ensures { AcceptedPass }
{}

/// Where the replies aren't to be accepted, no file is to be replaced.
pub fn what_tests_replace<D: FileSystem>(disk: &D)
    ensures { NothingIsReplaced (D.known disk.now) }
{
    let _disk = disk;
}
