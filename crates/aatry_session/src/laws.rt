//! What holds of a session whatever its lines, as laws over the definitions that `Session::answer` is proved to follow.

ghost use Rattle.aatry_session.specs.Laws.{AddLeavesInStep, AddsAsLinesDo, AddsInStep, BeginsInStep, ForgetsInStep};
ghost use Rattle.aatry_session.specs.Laws.{LeavesInStep, RefusedTurnLeavesAll, StaysInStep, SwitchesInStep};
ghost use Rattle.aatry_session.specs.LoadingLaws.{AddLeavesBehind, AddsBehind, AddsUnmarked, BeginsBehind, BeginsUnmarked, ForgetsBehind};
ghost use Rattle.aatry_session.specs.LoadingLaws.{LeavesBehind, RefusesToUndoMore, StaysBehind, SwitchesBehind, SwitchesUnmarked, UndoesToTheLoaded};
ghost use Rattle.aatry_session.specs.PlaceLaws.{AddLeavesKnowing, AddsKnowing, BeginsKnowing, ForgetsForAnyFiles};
ghost use Rattle.aatry_session.specs.PlaceLaws.{KnowsTheLoaded, LeavesKnowing, StaysKnowing, SwitchesKnowing};

use aa_bytes::Sequence;
use aa_decide::Entry;
use aa_history::{
    what_going_to_marks_keeps, what_machines_keep, what_marks_mark, where_machines_go_back_to,
};
use aa_profile::how_profiles_are_named;
use aa_set::the_way_back;
use aatry_policy::where_loaded_profiles_are_read;

/// A session begins with its history in step with its policy set, and stays so whatever its lines, whichever file is added, however its profiles are
/// to be loaded, and where places are forgotten: there are as many texts as there are changes that can be undone or redone, and of as many it is
/// kept where profiles were read. So it stays where memory runs out for the answer. Adding a file by its name does what a line does that says so. A
/// line that the machine refuses leaves the policy set, its history, the texts, and where profiles were read, as they were.
pub fn the_history_is_in_step()
    ensures begins { BeginsInStep }
    ensures stays { StaysInStep }
    ensures left { LeavesInStep }
    ensures adds { AddsInStep }
    ensures left_adding { AddLeavesInStep }
    ensures switches { SwitchesInStep }
    ensures forgets { ForgetsInStep }
    ensures as_lines { AddsAsLinesDo }
    ensures refused { RefusedTurnLeavesAll }
{
    where_machines_go_back_to::<Sequence<Entry>>();
    what_marks_mark::<Sequence<Entry>>();
    what_going_to_marks_keeps::<Sequence<Entry>>();
    the_way_back();
}

/// A session knows of each loaded profile where it was read, and this stays so whatever its lines, whichever file is added and however it is loaded,
/// also where memory runs out for the answer: the profile's origin, by the last change that is done and loaded one of its name, is that of a file
/// with this profile, with the places that this file has for it, where these are known still. It also knows so of each policy set that can be undone
/// or redone to. Where places are forgotten, that holds for any files, so also for those that are read anew.
pub fn where_profiles_of_a_session_are_read()
    ensures begins { BeginsKnowing }
    ensures stays { StaysKnowing }
    ensures left { LeavesKnowing }
    ensures adds { AddsKnowing }
    ensures left_adding { AddLeavesKnowing }
    ensures switches { SwitchesKnowing }
    ensures forgets { ForgetsForAnyFiles }
    ensures loaded { KnowsTheLoaded }
{
    what_machines_keep::<Sequence<Entry>>();
    what_going_to_marks_keeps::<Sequence<Entry>>();
    how_profiles_are_named();
    where_loaded_profiles_are_read();
}

/// A session goes back at most to the policy set as it was loaded. It begins without marks, and adding files leaves it so, however their profiles
/// are to be loaded; and where its history begins then, it stays after what was loaded whatever its lines, whichever file is added, and where places
/// are forgotten, also where memory runs out for the answer: its first policy sets are those that loading made, the present one is none before the
/// last of these, and no mark leads to one. So undoing as many changes as can be undone leads to the very policy set that was loaded: its profiles,
/// their order, states, modes and rules. A line that undoes more is refused, and leaves everything as it was.
pub fn how_far_sessions_go_back()
    ensures unmarked { BeginsUnmarked }
    ensures adds_unmarked { AddsUnmarked }
    ensures switches_unmarked { SwitchesUnmarked }
    ensures begins { BeginsBehind }
    ensures stays { StaysBehind }
    ensures left { LeavesBehind }
    ensures adds { AddsBehind }
    ensures left_adding { AddLeavesBehind }
    ensures switches { SwitchesBehind }
    ensures forgets { ForgetsBehind }
    ensures undoes { UndoesToTheLoaded }
    ensures refuses { RefusesToUndoMore }
{
    what_machines_keep::<Sequence<Entry>>();
    where_machines_go_back_to::<Sequence<Entry>>();
    what_going_to_marks_keeps::<Sequence<Entry>>();
}
