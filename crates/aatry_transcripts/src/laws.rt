//! What holds of comparisons, and of transcripts whose replies are accepted, as laws over the definitions that calls are proved to follow.

ghost use Rattle.std.specs.Prelude.{◌≡◌, ℕ, List, false, true};
ghost use Rattle.std.specs.List.{list_any};
ghost use Rattle.aatry_transcripts.specs.Laws.{AsksTheSame, KeepsTheOthers, PassesThen};
ghost use Rattle.aatry_transcripts.specs.Meeting.{AreMetBy, are_met, are_same, leaves_out};

/// A transcript is as it is wanted exactly where the output lines are those that its wanted lines ask for, in their order: each of these itself,
/// byte for byte, or, where it ends in ` ..`, the line without that end followed by an audit line. Where no wanted line ends so, they are the wanted
/// lines. Output lines that are wanted as they are, are always met.
pub fn what_a_comparison_says()
    ensures asked { (wanted told : List (List ℕ)) → are_met wanted told ≡ true → AreMetBy wanted told }
    ensures met { (wanted told : List (List ℕ)) → AreMetBy wanted told → are_met wanted told ≡ true }
    ensures whole { (wanted told : List (List ℕ)) → list_any leaves_out wanted ≡ false → are_met wanted told ≡ are_same told wanted }
    ensures itself { (lines : List (List ℕ)) → are_met lines lines ≡ true }
    ensures passed { (told wanted : List (List ℕ)) → are_same told wanted ≡ true → told ≡ wanted }
    ensures same { (lines : List (List ℕ)) → are_same lines lines ≡ true }
{}

/// Where a run's output for a transcript can be accepted, the accepted text is that of a transcript that passes with that output, and whose run gets
/// the same commands; and each command, assertion, comment and line of blanks is in it as before, byte for byte and in their order, and no others.
pub fn what_acceptance_makes()
    ensures passes { PassesThen }
    ensures same { AsksTheSame }
    ensures kept { KeepsTheOthers }
{}
