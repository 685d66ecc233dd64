//! Rows of the numbers and names of refusals.

use aa_glob::PatternError;
use aa_set::{GrammarRefusal, ProfileRefusal, Refusal, RefusalKind};
use aa_text::{CutFault, CutRefusal, FilesError, TextError, TextRefusal};
use test_row_texts::{Part, RowError, Tally, put_number_word};

const PATTERN_ERRORS: [PatternError; 12] = [
    PatternError::NotAbsolute,
    PatternError::UnclosedClass,
    PatternError::EmptyClass,
    PatternError::BadRange,
    PatternError::UnclosedGroup,
    PatternError::StrayClose,
    PatternError::FewAlternatives,
    PatternError::BadEscape,
    PatternError::TooLong,
    PatternError::TooDeep,
    PatternError::ZeroByte,
    PatternError::Memory,
];

const CUT_REFUSALS: [CutRefusal; 3] = [
    CutRefusal::OpenQuote,
    CutRefusal::OpenOther,
    CutRefusal::Memory,
];

const FILES_ERRORS: [FilesError; 3] = [FilesError::BadFile, FilesError::Twice, FilesError::Memory];

const TEXT_REFUSALS: [TextRefusal; 11] = [
    TextRefusal::ZeroByte,
    TextRefusal::OpenQuote,
    TextRefusal::OpenOther,
    TextRefusal::NoFile,
    TextRefusal::IncludeDepth,
    TextRefusal::TextTooBig,
    TextRefusal::Undefined,
    TextRefusal::Redefined,
    TextRefusal::AppendUndefined,
    TextRefusal::Cycle,
    TextRefusal::Memory,
];

const GRAMMAR_REFUSALS: [GrammarRefusal; 17] = [
    GrammarRefusal::BadToken,
    GrammarRefusal::OpenBlock,
    GrammarRefusal::BadFlag,
    GrammarRefusal::BadAccess,
    GrammarRefusal::WriteAppend,
    GrammarRefusal::TwoExec,
    GrammarRefusal::ExecQualifier,
    GrammarRefusal::TargetWithoutExec,
    GrammarRefusal::BadCapability,
    GrammarRefusal::BadNetwork,
    GrammarRefusal::TwiceNamed,
    GrammarRefusal::NestedChild,
    GrammarRefusal::LateAssignment,
    GrammarRefusal::NoProfile,
    GrammarRefusal::BadName,
    GrammarRefusal::LeftOut,
    GrammarRefusal::Memory,
];

// The refusals of a command that are none of a file.
const COMMAND_REFUSALS: [RefusalKind; 10] = [
    RefusalKind::Exists,
    RefusalKind::Absent,
    RefusalKind::Disabled,
    RefusalKind::NothingToUndo,
    RefusalKind::NothingToRedo,
    RefusalKind::BadCommand,
    RefusalKind::LineTooLong,
    RefusalKind::BadRequest,
    RefusalKind::NoMark,
    RefusalKind::Memory,
];

// A number and a name.
type Described = (u8, &'static str);

fn pattern_error(at: usize) -> Option<Described> {
    let error = PATTERN_ERRORS.get(at)?;
    Some((error.number(), error.name()))
}

fn cut_fault(at: usize) -> Option<Described> {
    let fault = CutFault {
        refusal: *CUT_REFUSALS.get(at)?,
        at: None,
    };
    Some((fault.number(), fault.name()))
}

fn files_error(at: usize) -> Option<Described> {
    let error = FILES_ERRORS.get(at)?;
    Some((error.number(), error.name()))
}

fn text_error(at: usize) -> Option<Described> {
    let error = TextError {
        refusal: *TEXT_REFUSALS.get(at)?,
        place: None,
    };
    Some((error.number(), error.name()))
}

fn grammar_refusal(at: usize) -> Option<Described> {
    let refusal = GRAMMAR_REFUSALS.get(at)?;
    Some((refusal.number(), refusal.name()))
}

// The refusal of a file by its index: ten of patterns, ten of its text, sixteen of its grammar, and its own.
fn file_refusal(at: usize) -> Option<ProfileRefusal> {
    match at {
        0..=9 => Some(ProfileRefusal::from(*PATTERN_ERRORS.get(at)?)),
        10..=19 => Some(ProfileRefusal::from(*TEXT_REFUSALS.get(at - 10)?)),
        20 => Some(ProfileRefusal::TooManyRules),
        21..=36 => Some(ProfileRefusal::from(*GRAMMAR_REFUSALS.get(at - 21)?)),
        37 => Some(ProfileRefusal::ManyStates),
        38 => Some(ProfileRefusal::ExecConflict),
        _ => None,
    }
}

// The refusal of a command by its index: those of a file, and then its own.
fn command_refusal(at: usize) -> Option<RefusalKind> {
    match file_refusal(at) {
        Some(refusal) => Some(RefusalKind::from(refusal)),
        None => COMMAND_REFUSALS.get(at.checked_sub(39)?).copied(),
    }
}

fn refusal(at: usize) -> Option<Described> {
    let refusal = Refusal {
        refusal: command_refusal(at)?,
        place: None,
    };
    Some((refusal.number(), refusal.name()))
}

// The number and the name of a type's variant by its index.
fn described(kind: &str, at: usize) -> Option<Described> {
    match kind {
        "PatternError" => pattern_error(at),
        "CutFault" => cut_fault(at),
        "FilesError" => files_error(at),
        "TextError" => text_error(at),
        "GrammarRefusal" => grammar_refusal(at),
        "Refusal" => refusal(at),
        _ => None,
    }
}

// What a fault of the cut prints.
fn put_printed(answered: &mut Vec<u8>, refusal: CutRefusal) -> Result<(), RowError> {
    let fault = CutFault { refusal, at: None };
    let text = format!(in *answered.allocator(); " {fault}")?;
    answered.extend_from_slice(text.as_str().as_bytes())?;
    Ok(())
}

// Appends the number and the name of a variant to bytes.
fn put_described(answered: &mut Vec<u8>, (number, name): Described) -> Result<(), RowError> {
    put_number_word(answered, number as usize)?;
    answered.extend_from_slice(name.as_bytes())?;
    Ok(())
}

// Appends the number and the name of a type's variant by its index to bytes.
fn put_answered(answered: &mut Vec<u8>, kind: &str, at: usize) -> Result<(), RowError> {
    match described(kind, at) {
        Some(described) => put_described(answered, described)?,
        None => return Err(RowError::NoSuchVariant),
    }
    match CUT_REFUSALS.get(at) {
        Some(refusal) if kind == "CutFault" => put_printed(answered, *refusal),
        _ => Ok(()),
    }
}

// Asks for the number and the name of a type's variant by its index.
fn ask_line(tally: &mut Tally, kind: &str, at: usize, line: &str) -> Result<(), RowError> {
    tally.wanted.extend_from_slice(line.as_bytes())?;
    put_answered(&mut tally.answered, kind, at)?;
    tally.settle(kind)
}

/// Asks the rows of a paragraph: the name of a type, and then a line for each of its variants, in their order.
pub fn ask_refusal_rows(tally: &mut Tally, parts: &[Part<'_>]) -> Result<(), RowError> {
    let [kind, lines @ ..] = parts else {
        return Ok(());
    };
    for (at, part) in lines.iter().enumerate() {
        tally.begin(part.line);
        ask_line(tally, kind.head, at, part.head)?;
    }
    Ok(())
}
