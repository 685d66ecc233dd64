//! What the answers mean whether a program that somebody starts ever runs unconfined, as laws over the definitions that the calls are proved to follow.

ghost use Rattle.aatry_never_exec.specs.Laws.{ChainsAreReached, ExecIsNoAccess, ManyMeansTooMany, NeverMeansNone, NoMeansSome};

use aa_explain_reach::{what_is_not_reached, what_is_reached};

/// `never` is told only where no chain of starts ends unconfined, however long it is, of which who is asked about starts the first; and `no` only where one
/// does: the chain that is told, whose first place is reached by the starts of who is asked about, each other from the one before it, and whose last is
/// unconfined. `many` is told only where someone's paths are too many.
pub fn what_never_exec_says()
    ensures never { NeverMeansNone }
    ensures some { NoMeansSome }
    ensures chain { ChainsAreReached }
    ensures many { ManyMeansTooMany }
{
    what_is_not_reached();
    what_is_reached();
}

/// Words that ask whether a program ever runs unconfined claim nothing of an access, since no letters of one spell `exec`.
pub fn which_words_ask_exec()
    ensures { ExecIsNoAccess }
{}
