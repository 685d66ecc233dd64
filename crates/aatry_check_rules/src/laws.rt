//! When two rules were made of one written rule, as a law over the definitions that the calls are proved to follow.

ghost use Rattle.aatry_check_rules.specs.Laws.{NumbersTellWrittenRules};

/// Rules have the same number of a written rule exactly where they are the same rule, or are written at one place, as far as that is known.
pub fn numbers_tell_written_rules()
    ensures { NumbersTellWrittenRules }
{}
