//! What holds of parts of which nothing is told, as a law over the definitions that the calls are proved to follow.

ghost use Rattle.aatry_path_changes.specs.Laws.{SameAnswerAlike};

use aa_explain_changes::{letters_decide_sets, no_change_is_hidden};
use aa_explain_start_changes::no_start_change_is_hidden;

/// Where nothing is told of a part of both folders, they answer alike: they are in one mode, or both disabled, and by their rules, where these are asked, no
/// answer changes to a letter of a path that the kernel may ask about, to a capability, or to sockets of a domain and a type; nor to letters together, in
/// whatever mode. And each program of an absolute path that the kernel may ask about is started by who has the part's name to a place of the same name, alike
/// scrubbed, in both folders, each in its own mode, or by neither. Where that is asked, all of it but for how answers are logged.
pub fn what_is_the_same_answers_alike()
    ensures { SameAnswerAlike }
{
    no_change_is_hidden();
    letters_decide_sets();
    no_start_change_is_hidden();
}
