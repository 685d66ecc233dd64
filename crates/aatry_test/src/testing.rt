//! The test of a transcript.

ghost use Rattle.std.specs.Prelude.{◌≡◌, ◌++◌, ℕ, Bool, List, IfOk, false, if◌then◌else◌};
ghost use Rattle.std.specs.List.{list_any};
ghost use Rattle.aa_set.specs.Run.{output};
ghost use Rattle.aa_set_commands.specs.Lines.{lines as lines_in};
ghost use Rattle.aa_set_manager.specs.Manager.{new_manager_in};
ghost use Rattle.aatry_test.specs.Differences.{comparison};
ghost use Rattle.aatry_test.specs.SeenOutcomes.{seen_outcome};
ghost use Rattle.aatry_test.specs.Tests.{Accepted, Failed, IsTested, is_accepted, outcome_of, says_memory};
ghost use Rattle.aatry_test.specs.Running.{seen_asserted};
ghost use Rattle.aatry_transcripts.specs.Accepting.{accepted_text};
ghost use Rattle.aatry_transcripts.specs.Transcripts.{input_of, texts, transcript_lines};

use crate::asserted::Asserted;
use crate::comparing::compare;
use crate::running::{Run, assert_lines};
use aa_bytes::begins_with;
use aa_set::{FromRead, Language, ToWrite, run_in};
use aa_text_files::Files;
use aatry_transcripts::{accepted_text, can_be_accepted, input_of, lines_of, transcript_lines};
use std::alloc::{AllocError, Global};

/// A transcript: the path by which it is named, and its text.
#[derive(Clone, Copy)]
pub struct Transcript<'a> {
    /// The path.
    pub path: &'a [u8],
    /// The text.
    pub text: &'a [u8],
}

/// The outcome of a transcript.
#[derive(Drop)]
pub enum Outcome {
    /// The replies are what it wants.
    Passed,
    /// The replies differ.
    Failed,
    /// The replies differ, and are accepted: its text from now on.
    Accepted(Vec<u8>),
}

// The output of a run over these files, read by a language, for an input. If there is none, memory ran out, as neither the input nor the output can
// fail otherwise.
fn output_for(
    alloc: Global,
    language: Language,
    files: &Files,
    input: &[u8],
) -> Result<Vec<u8>, AllocError>
    ensures { IfOk result (λ told. (flags : List Bool) × (told.items ≡ output files.now (new_manager_in language false) input.now flags)) }
{
    let mut reader = FromRead::new(input);
    let mut writer = ToWrite::new(Vec::new(alloc));
    match run_in(alloc, language, files, false, &mut reader, &mut writer) {
        Ok(_) => Ok(writer.into_inner()),
        Err(_) => Err(AllocError),
    }
}

// The output of a run over these files for the commands of a transcript, by its lines.
fn output_for_lines(
    alloc: Global,
    language: Language,
    files: &Files,
    lines: &[&[u8]],
) -> Result<Vec<u8>, AllocError>
    ensures { IfOk result (λ told. (flags : List Bool) × (told.items ≡ output files.now (new_manager_in language false) (input_of (texts lines.now)) flags)) }
{
    let input = input_of(alloc, lines)?;
    output_for(alloc, language, files, &input)
}

// Whether a line is the refusal of a command at which memory ran out.
fn says_memory(line: &[u8]) -> bool
    ensures { result ≡ says_memory line.now }
{
    begins_with(b"refused 99 ", line)
}

// Whether some line is the refusal of a command at which memory ran out.
fn lacked_memory(lines: &[&[u8]]) -> bool
    ensures { result ≡ list_any says_memory (texts lines.now) }
{
    for line in lines {
        if says_memory(line) {
            return true;
        }
    }
    false
}

// The outcome of a transcript whose replies aren't the wanted ones.
fn outcome_of_differing(
    alloc: Global,
    accepted: bool,
    transcript: &[u8],
    told: &[&[u8]],
) -> Result<Outcome, AllocError>
    ensures { IfOk result (λ outcome. seen_outcome outcome
        ≡ (if accepted then Accepted (accepted_text transcript.now (texts told.now)) else Failed)) }
{
    if accepted {
        Ok(Outcome::Accepted(accepted_text(alloc, transcript, told)?))
    } else {
        Ok(Outcome::Failed)
    }
}

// Compares a transcript, whose lines are given, with the output of a run and the outcome of its assertions, appends the report to a text, and
// returns the outcome. Where memory ran out at a command, that is unknown.
fn compare_with(
    alloc: Global,
    accept: bool,
    transcript: &Transcript,
    lines: &[&[u8]],
    told: &[u8],
    asserted: &Asserted,
    out: &mut Vec<u8>,
) -> Result<Outcome, AllocError>
    requires { texts lines.now ≡ transcript_lines transcript.now.text.now }
    ensures { IfOk result (λ outcome. (list_any says_memory (lines_in told.now) ≡ false)
        × (seen_outcome outcome ≡ outcome_of accept transcript.now.text.now (lines_in told.now) (seen_asserted asserted.now))
        × (out.new.items ≡ out.old.items ++ comparison (is_accepted accept transcript.now.text.now (lines_in told.now) (seen_asserted asserted.now))
        transcript.now.path.now (transcript_lines transcript.now.text.now) (lines_in told.now) (seen_asserted asserted.now))) }
{
    let told = lines_of(alloc, told)?;
    if lacked_memory(&told) {
        return Err(AllocError);
    }
    let accepted = accept && can_be_accepted(lines, &told) && asserted.failing == 0;
    if compare(
        alloc,
        accepted,
        transcript.path,
        lines,
        &told,
        asserted,
        out,
    )? {
        return Ok(Outcome::Passed);
    }
    outcome_of_differing(alloc, accepted, transcript.text, &told)
}

/// Runs the commands of a transcript over these files, read by a language, from the empty policy set on, compares the replies with what the
/// transcript wants, asks its assertions, appends the report to a text, and returns the outcome. In a transcript a line that begins with `> ` holds
/// a command, and one that begins with `! ` an assertion (`aatry_test::assert_lines`); a line that begins with `#` and one of blanks are left out,
/// and each other line is wanted. A carriage return at a line's end is left out.
///
/// It passed where all reply lines are what its wanted lines ask for, and all its assertions hold. Otherwise it failed; or where `accept` is set,
/// the replies can be accepted (`aatry_transcripts::can_be_accepted`), and all its assertions hold, it is accepted, and its text from now on is
/// returned (`aatry_transcripts::accepted_text`).
///
/// # Errors
///
/// Where memory runs out, also for a command of the transcript (`aa_set::run_in` answers that 99). A beginning may have been appended then.
pub fn test(
    alloc: Global,
    language: Language,
    files: &Files,
    accept: bool,
    transcript: &Transcript,
    out: &mut Vec<u8>,
) -> Result<Outcome, AllocError>
    ensures { IfOk result (λ outcome. (text : List ℕ) × (out.new.items ≡ out.old.items ++ text)
        × IsTested language files.now accept transcript.now.path.now transcript.now.text.now (seen_outcome outcome) text) }
{
    let lines = transcript_lines(alloc, transcript.text)?;
    let told = output_for_lines(alloc, language, files, &lines)?;
    let run = Run {
        language,
        files,
        path: transcript.path,
    };
    let asserted = assert_lines(alloc, run, &lines)?;
    compare_with(alloc, accept, transcript, &lines, &told, &asserted, out)
}
