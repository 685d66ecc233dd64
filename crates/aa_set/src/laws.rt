//! Properties of the policy set with its history, whatever lines it is given, as laws over the definitions that `run` and `Manager` are proved to
//! follow.

ghost use Rattle.aa_set.specs.Laws.{BackNeverFails, BackTwiceIsOnce, MarkGivesBack, MarkLeavesSets, SameMarksLeadToOne};
ghost use Rattle.aa_set.specs.Laws.{OtherLineLeavesAll, PiecesChangeNoReply, RefusedLineLeavesAll, SetDecidesAnswer};
ghost use Rattle.aa_set.specs.Laws.{SetsHaveDistinctNames, SoFarIsFront, StepsAdd, StepsReturn, UndoGivesBack};

use aa_bytes::Sequence;
use aa_decide_ready::Entry;
use aa_history::{
    how_machines_go_back_and_on, marks_lead_back, what_going_to_marks_keeps, what_machines_keep,
    what_marks_mark, where_machines_go_back_to,
};
use aa_set_manager::what_changes_keep;

/// A refused line changes neither the policy set nor its history nor the marks, and neither does any line that is no change, no undo, no redo and no
/// mark, as a question or a blank line. After lines of which none undoes or redoes, undoing as many changes as were accepted restores the very
/// policy set from before them, with its history. Undoing some changes and then others is undoing them at once, and likewise for redoing; and
/// redoing what was undone restores policy set and history, as undoing what was redone does. The reply to a question, to `list` and to `show`
/// depends on the policy set alone, so each request then gets the answer that it had. No policy set in a run has two profiles of one name.
pub fn the_way_back()
    ensures refused_line_leaves_all { RefusedLineLeavesAll }
    ensures other_line_leaves_all { OtherLineLeavesAll }
    ensures undo_gives_back { UndoGivesBack }
    ensures steps_add_and_return { StepsAdd × StepsReturn }
    ensures set_decides_answer { SetDecidesAnswer }
    ensures sets_have_distinct_names { SetsHaveDistinctNames }
{
    how_machines_go_back_and_on::<Sequence<Entry>>();
    what_machines_keep::<Sequence<Entry>>();
    where_machines_go_back_to::<Sequence<Entry>>();
    what_marks_mark::<Sequence<Entry>>();
    what_going_to_marks_keeps::<Sequence<Entry>>();
    what_changes_keep();
}

/// A line that marks changes nothing but the marks. Going to a name that is marked always succeeds, whether memory is left or not, and drops nothing
/// that could be undone or redone, and no mark. Whatever lines follow a `mark`, as long as no change is accepted with fewer changes made than there
/// were at the mark, and the name isn't given to another policy set, `back` restores the very policy set that was marked, with its history. Two
/// names of one policy set lead to one place, and going to a mark twice is going there once.
pub fn where_marks_lead()
    ensures mark_leaves_sets { MarkLeavesSets }
    ensures back_never_fails { BackNeverFails }
    ensures mark_gives_back { MarkGivesBack }
    ensures same_marks_lead_to_one { SameMarksLeadToOne }
    ensures back_twice_is_once { BackTwiceIsOnce }
{
    what_marks_mark::<Sequence<Entry>>();
    what_going_to_marks_keeps::<Sequence<Entry>>();
    marks_lead_back::<Sequence<Entry>>();
}

/// What a run writes before a fault of its reader, the replies to the whole lines that were read, is a prefix of what a run writes that reads these
/// bytes and any more to the end: for some choice of the lines for which memory runs out.
pub fn what_faults_leave()
    ensures { SoFarIsFront }
{}

/// The pieces in which an input is read change no reply: two runs that read the same bytes to the end give the same replies, where memory ran out
/// for no line of either.
pub fn pieces_change_no_reply()
    ensures { PiecesChangeNoReply }
{}
