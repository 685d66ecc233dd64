//! Asks the rows of the files that its arguments name, each by its kind, the name of its file up to the first dot; or measures
//! patterns: `--measure PATTERNS PATHS ROUNDS`.
#![tactic(auto)]

use anyhow::Result;
use test_pattern_rows::{ask_automaton_rows, ask_pattern_rows, ask_work_rows, measures};
use test_row_texts::{Asks, Part, RowError, Tally, ask_files};
use test_run_rows::{ask_refusal_rows, ask_run_rows};
use test_text_rows::{
    ask_file_rows, ask_gathering_rows, ask_journal_rows, ask_splicing_rows, ask_table_rows,
    ask_token_rows, ask_variable_rows,
};

// What asks rows of each kind.
struct Kinds;

impl Asks for Kinds {
    fn ask(
        &self,
        tally: &mut Tally,
        kind: &str,
        common: &[Part<'_>],
        parts: &[Part<'_>],
    ) -> Result<(), RowError> {
        match kind {
            "patterns" | "overlaps" => ask_pattern_rows(tally, parts),
            "automata" => ask_automaton_rows(tally, parts),
            "work" => ask_work_rows(tally, parts),
            "tokens" => ask_token_rows(tally, parts),
            "splicings" => ask_splicing_rows(tally, common, parts),
            "variables" => ask_variable_rows(tally, parts),
            "files" => ask_file_rows(tally, parts),
            "gatherings" => ask_gathering_rows(tally, parts),
            "journals" => ask_journal_rows(tally, parts),
            "tables" => ask_table_rows(tally, parts),
            "refusals" => ask_refusal_rows(tally, parts),
            "changes"
            | "commands"
            | "profiles"
            | "grammar"
            | "languages"
            | "decisions"
            | "documents"
            | "exec"
            | "includes"
            | "places"
            | "lengths"
            | "marks"
            | "remembered"
            | "streams" => ask_run_rows(tally, common, parts),
            _ => Err(RowError::NoSuchKind),
        }
    }
}

fn main(rt: HostRuntime) -> Result<()> {
    if measures(&rt)? {
        return Ok(());
    }
    ask_files(&rt, &Kinds)
}
