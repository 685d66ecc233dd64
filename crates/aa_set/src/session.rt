//! The run of command lines: lines from a reader, replies to a writer.

ghost use Rattle.std.specs.Prelude.{◌≡◌, ◌+◌, ◌-◌, ◌^◌, ◌<◌, ◌≤◌, ◌||◌, ◌∷◌, [], length, vec_len, count_by};
ghost use Rattle.std.specs.Prelude.{false, true, OnOk, OnErr, IfOk, IsErrOf, ◌⊎◌};
ghost use Rattle.std.specs.List.{list_any};
ghost use Rattle.std.specs.Io.{ReadsAtMost};
ghost use Rattle.std.specs.Io.KnownBytes.{IsAtEnd, ReadConsumes};
ghost use Rattle.aa_set_commands.specs.Lines.{is_line_feed};
ghost use Rattle.aa_set.specs.Reply.{is_acceptance, is_refusal};
ghost use Rattle.aa_set.specs.Limits.{most_reads};
ghost use Rattle.aa_set_manager.specs.Manager.{new_manager, new_manager_in};
ghost use Rattle.aa_set.specs.Run.{HasGiven, HoldsOfRead, IsAnsweredSoFar, IsFrontAnswered, IsLeftAnswered};
ghost use Rattle.aa_set_commands.specs.Streams.{comes_to_end};
ghost use Rattle.aa_set_answers.specs.Answers.{line_with};
ghost use Rattle.aa_set.specs.code.Session.{AnswersLine, BreaksAfter, BreaksOff, BreaksOffEnd, BreaksOffLine, EndsInput};
ghost use Rattle.aa_set.specs.code.Session.{EndsLine, Feeds, IsFresh, Serves, StopsAfter, counted, piece_size};

use crate::writing::write_reply;
use aa_profile_parsing::Language;
use aa_set_commands::{Failed, LineBuffer, Sink, Source, first_line, flush};
use aa_set_manager::{Manager, Reply, reply_to};
use aa_text_files::Files;
use std::alloc::{AllocError, Global};
use thiserror::Error;

/// How many commands were accepted and how many refused. A blank line is neither.
#[derive(Clone, Copy, Debug, PartialEq, Eq)]
pub struct Summary {
    /// The lines whose reply was no refusal.
    pub accepted: u64,
    /// The lines whose reply was a refusal.
    pub refused: u64,
}

/// Why a run stops before the end of its input.
#[derive(Clone, Copy, Debug, PartialEq, Eq, Error)]
pub enum RunFault {
    /// A read failed, or the input didn't end within 2,147,483,648 reads.
    #[error("the input could not be read to its end")]
    Read,
    /// A write failed.
    #[error("a reply could not be written")]
    Write,
    /// No memory was left for the buffers, before anything was read.
    #[error("no memory is left")]
    Memory,
}

// What a run keeps from line to line.
#[derive(Drop)]
pub struct Session {
    pub manager: Manager,
    pub waiting: Vec<u8>,
    pub summary: Summary,
}

/// How many reads `run` makes at most.
pub const MOST_READS: u32 = 2_147_483_648;

// How many bytes a read asks for, and how many bytes of replies wait at most to be written.
const PIECE: usize = 65_536;

/// Reads command lines, answers one after another, and writes the replies: `run_with` with 2,147,483,648 reads. Files are read by the language of
/// AppArmor 3.
///
/// The run begins with the empty policy set. A line ends at a line feed, the last one at the input's end too; one of more than 65,536 bytes is
/// refused when it ends. The replies to all lines that were read are written before the next read. The buffers for lines and replies are allocated
/// before the first read, and never grow; a line that undoes changes takes no memory.
///
/// # Errors
///
/// - `Memory`: no memory was left for the buffers. Nothing was read or written.
/// - `Read`: a read failed, or 2,147,483,648 reads were made and each gave at least one byte. The replies to the whole lines that were
///   read are written, and nothing else: an unfinished line has no reply.
/// - `Write`: a write failed. What was written is a prefix of the replies to what was read.
pub fn run<S: Source, W: Sink>(
    alloc: Global,
    files: &Files,
    force_complain: bool,
    reader: &mut S,
    writer: &mut W,
) -> Result<Summary, RunFault>
    requires whole_reader { S.failed reader.old ≡ false }
    requires whole_writer { W.failed writer.old ≡ false }
    requires reads { S.reads reader.old ≤ 2 ^ 63 }

    // The replies are those of the machine that keeps whole policy sets, to all that was read.
    ensures answered { IfOk result
        (IsLeftAnswered files.now (new_manager force_complain) (S.left reader.old) (W.written writer.old) (W.written writer.new)) }
    ensures ended { OnOk result (IsAtEnd (S.left reader.new)) }
    ensures end { OnOk result (S.ended reader.new ≡ true) }
    ensures whole { OnOk result ((S.failed reader.new ≡ false) × (W.failed writer.new ≡ false)) }

    // The reader reads no more often than it may.
    ensures bound { S.reads reader.new ≤ S.reads reader.old + most_reads }

    // When each fault comes.
    ensures read { IsErrOf result RunFault.Read → (S.failed reader.new ≡ true) ⊎ (S.reads reader.new ≡ S.reads reader.old + most_reads) }
    ensures going { IsErrOf result RunFault.Read → S.failed reader.new ≡ false → S.ended reader.new ≡ S.ended reader.old }
    ensures given { IsErrOf result RunFault.Read → S.failed reader.new ≡ false → HasGiven most_reads (S.left reader.old) (S.left reader.new) }
    ensures write { IsErrOf result RunFault.Write → W.failed writer.new ≡ true }

    // What holds after each fault.
    ensures so_far { IsErrOf result RunFault.Read → HoldsOfRead (S.left reader.old) (S.left reader.new)
        (IsAnsweredSoFar files.now (new_manager force_complain) (W.written writer.old) (W.written writer.new)) }
    ensures front { IsErrOf result RunFault.Write → HoldsOfRead (S.left reader.old) (S.left reader.new)
        (IsFrontAnswered files.now (new_manager force_complain) (W.written writer.old) (W.written writer.new)) }
    ensures memory { IsErrOf result RunFault.Memory → (reader.new ≡ reader.old) × (writer.new ≡ writer.old) }
{
    run_with(alloc, files, force_complain, MOST_READS, reader, writer)
}

/// Answers command lines as `run` does, over files that are read by this language: `run_with_in` with 2,147,483,648 reads.
///
/// # Errors
///
/// As for `run`.
pub fn run_in<S: Source, W: Sink>(
    alloc: Global,
    language: Language,
    files: &Files,
    force_complain: bool,
    reader: &mut S,
    writer: &mut W,
) -> Result<Summary, RunFault>
    requires whole_reader { S.failed reader.old ≡ false }
    requires whole_writer { W.failed writer.old ≡ false }
    requires reads { S.reads reader.old ≤ 2 ^ 63 }

    // The replies are those of the machine that keeps whole policy sets, to all that was read.
    ensures answered { IfOk result
        (IsLeftAnswered files.now (new_manager_in language force_complain) (S.left reader.old) (W.written writer.old) (W.written writer.new)) }
    ensures ended { OnOk result (IsAtEnd (S.left reader.new)) }
    ensures end { OnOk result (S.ended reader.new ≡ true) }
    ensures whole { OnOk result ((S.failed reader.new ≡ false) × (W.failed writer.new ≡ false)) }

    // The reader reads no more often than it may.
    ensures bound { S.reads reader.new ≤ S.reads reader.old + most_reads }

    // When each fault comes.
    ensures read { IsErrOf result RunFault.Read → (S.failed reader.new ≡ true) ⊎ (S.reads reader.new ≡ S.reads reader.old + most_reads) }
    ensures going { IsErrOf result RunFault.Read → S.failed reader.new ≡ false → S.ended reader.new ≡ S.ended reader.old }
    ensures given { IsErrOf result RunFault.Read → S.failed reader.new ≡ false → HasGiven most_reads (S.left reader.old) (S.left reader.new) }
    ensures write { IsErrOf result RunFault.Write → W.failed writer.new ≡ true }

    // What holds after each fault.
    ensures so_far { IsErrOf result RunFault.Read → HoldsOfRead (S.left reader.old) (S.left reader.new)
        (IsAnsweredSoFar files.now (new_manager_in language force_complain) (W.written writer.old) (W.written writer.new)) }
    ensures front { IsErrOf result RunFault.Write → HoldsOfRead (S.left reader.old) (S.left reader.new)
        (IsFrontAnswered files.now (new_manager_in language force_complain) (W.written writer.old) (W.written writer.new)) }
    ensures memory { IsErrOf result RunFault.Memory → (reader.new ≡ reader.old) × (writer.new ≡ writer.old) }
{
    run_with_in(
        alloc,
        language,
        files,
        force_complain,
        MOST_READS,
        reader,
        writer,
    )
}

/// Answers command lines as `run` does, by at most `reads` reads: the end of the input must be seen within them.
///
/// # Errors
///
/// As for `run`, with `reads` in place of 2,147,483,648. Where that is 0 no read is made, and the fault is `Read`.
pub fn run_with<S: Source, W: Sink>(
    alloc: Global,
    files: &Files,
    force_complain: bool,
    reads: u32,
    reader: &mut S,
    writer: &mut W,
) -> Result<Summary, RunFault>
    requires whole_reader { S.failed reader.old ≡ false }
    requires whole_writer { W.failed writer.old ≡ false }
    requires reads { S.reads reader.old ≤ 2 ^ 63 }

    // The replies are those of the machine that keeps whole policy sets, to all that was read.
    ensures answered { IfOk result
        (IsLeftAnswered files.now (new_manager force_complain) (S.left reader.old) (W.written writer.old) (W.written writer.new)) }
    ensures ended { OnOk result (IsAtEnd (S.left reader.new)) }
    ensures end { OnOk result (S.ended reader.new ≡ true) }
    ensures whole { OnOk result ((S.failed reader.new ≡ false) × (W.failed writer.new ≡ false)) }

    // The reader reads no more often than it may.
    ensures bound { S.reads reader.new ≤ S.reads reader.old + reads }

    // When each fault comes.
    ensures read { IsErrOf result RunFault.Read → (S.failed reader.new ≡ true) ⊎ (S.reads reader.new ≡ S.reads reader.old + reads) }
    ensures going { IsErrOf result RunFault.Read → S.failed reader.new ≡ false → S.ended reader.new ≡ S.ended reader.old }
    ensures given { IsErrOf result RunFault.Read → S.failed reader.new ≡ false → HasGiven reads (S.left reader.old) (S.left reader.new) }
    ensures write { IsErrOf result RunFault.Write → W.failed writer.new ≡ true }

    // What holds after each fault.
    ensures so_far { IsErrOf result RunFault.Read → HoldsOfRead (S.left reader.old) (S.left reader.new)
        (IsAnsweredSoFar files.now (new_manager force_complain) (W.written writer.old) (W.written writer.new)) }
    ensures front { IsErrOf result RunFault.Write → HoldsOfRead (S.left reader.old) (S.left reader.new)
        (IsFrontAnswered files.now (new_manager force_complain) (W.written writer.old) (W.written writer.new)) }
    ensures memory { IsErrOf result RunFault.Memory → (reader.new ≡ reader.old) × (writer.new ≡ writer.old) }
{
    run_with_in(
        alloc,
        Language::Three,
        files,
        force_complain,
        reads,
        reader,
        writer,
    )
}

/// Answers command lines as `run_in` does, by at most `reads` reads: the end of the input must be seen within them.
///
/// # Errors
///
/// As for `run`, with `reads` in place of 2,147,483,648. Where that is 0 no read is made, and the fault is `Read`.
pub fn run_with_in<S: Source, W: Sink>(
    alloc: Global,
    language: Language,
    files: &Files,
    force_complain: bool,
    reads: u32,
    reader: &mut S,
    writer: &mut W,
) -> Result<Summary, RunFault>
    requires whole_reader { S.failed reader.old ≡ false }
    requires whole_writer { W.failed writer.old ≡ false }
    requires reads { S.reads reader.old ≤ 2 ^ 63 }

    // The replies are those of the machine that keeps whole policy sets, to all that was read.
    ensures answered { IfOk result
        (IsLeftAnswered files.now (new_manager_in language force_complain) (S.left reader.old) (W.written writer.old) (W.written writer.new)) }
    ensures ended { OnOk result (IsAtEnd (S.left reader.new)) }
    ensures end { OnOk result (S.ended reader.new ≡ true) }
    ensures whole { OnOk result ((S.failed reader.new ≡ false) × (W.failed writer.new ≡ false)) }

    // The reader reads no more often than it may.
    ensures bound { S.reads reader.new ≤ S.reads reader.old + reads }

    // When each fault comes.
    ensures read { IsErrOf result RunFault.Read → (S.failed reader.new ≡ true) ⊎ (S.reads reader.new ≡ S.reads reader.old + reads) }
    ensures going { IsErrOf result RunFault.Read → S.failed reader.new ≡ false → S.ended reader.new ≡ S.ended reader.old }
    ensures given { IsErrOf result RunFault.Read → S.failed reader.new ≡ false → HasGiven reads (S.left reader.old) (S.left reader.new) }
    ensures write { IsErrOf result RunFault.Write → W.failed writer.new ≡ true }

    // What holds after each fault.
    ensures so_far { IsErrOf result RunFault.Read → HoldsOfRead (S.left reader.old) (S.left reader.new)
        (IsAnsweredSoFar files.now (new_manager_in language force_complain) (W.written writer.old) (W.written writer.new)) }
    ensures front { IsErrOf result RunFault.Write → HoldsOfRead (S.left reader.old) (S.left reader.new)
        (IsFrontAnswered files.now (new_manager_in language force_complain) (W.written writer.old) (W.written writer.new)) }
    ensures memory { IsErrOf result RunFault.Memory → (reader.new ≡ reader.old) × (writer.new ≡ writer.old) }
{
    let Ok((mut session, mut held, mut piece)) = prepared(alloc, language, force_complain) else {
        return Err(RunFault::Memory);
    };
    serve(
        files,
        &mut session,
        &mut held,
        reads,
        reader,
        writer,
        &mut piece,
    )?;
    Ok(session.summary)
}

// Reads piece after piece, and answers the lines, until the input ends, by at most so many reads.
fn serve<S: Source, W: Sink>(
    files: &Files,
    session: &mut Session,
    held: &mut LineBuffer,
    reads: u32,
    reader: &mut S,
    writer: &mut W,
    piece: &mut [u8],
) -> Result<(), RunFault>
    requires fresh { counted session.old ≡ 0 }
    requires nothing_waits { session.old.waiting.items ≡ [] }
    requires piece { length piece.old ≡ piece_size }
    requires whole_reader { S.failed reader.old ≡ false }
    requires whole_writer { W.failed writer.old ≡ false }
    requires reads { S.reads reader.old ≤ 2 ^ 63 }
    ensures answered { OnOk result
        (Serves files.now (S.left reader.old) (W.written writer.old) (W.written writer.new) session.old held.old session.new) }
    ensures ended { OnOk result (IsAtEnd (S.left reader.new)) }
    ensures end { OnOk result (S.ended reader.new ≡ true) }
    ensures whole { OnOk result ((S.failed reader.new ≡ false) × (W.failed writer.new ≡ false)) }
    ensures read { IsErrOf result RunFault.Read → (S.failed reader.new ≡ true) ⊎ (S.reads reader.new ≡ S.reads reader.old + reads) }
    ensures going { IsErrOf result RunFault.Read → S.failed reader.new ≡ false → S.ended reader.new ≡ S.ended reader.old }
    ensures given { IsErrOf result RunFault.Read → S.failed reader.new ≡ false → HasGiven reads (S.left reader.old) (S.left reader.new) }
    ensures write { IsErrOf result RunFault.Write → W.failed writer.new ≡ true }
    ensures so_far { IsErrOf result RunFault.Read
        → StopsAfter files.now (S.left reader.old) (S.left reader.new) (W.written writer.old) (W.written writer.new) session.old held.old }
    ensures front { IsErrOf result RunFault.Write
        → BreaksAfter files.now (S.left reader.old) (S.left reader.new) (W.written writer.old) (W.written writer.new) session.old held.old }
    ensures memory { IsErrOf result RunFault.Memory → ⊥ }
    ensures bound { S.reads reader.new ≤ S.reads reader.old + reads }
{
    for _turn in 0..reads {
        let Ok(count) = read_piece(reader, session.waiting.as_slice(), piece) else {
            return Err(RunFault::Read);
        };
        if count == 0 {
            let Ok(()) = finish(files, session, held, writer) else {
                return Err(RunFault::Write);
            };
            return Ok(());
        }
        let Ok(()) = turn(files, session, held, writer, &piece[..count]) else {
            return Err(RunFault::Write);
        };
    }
    Err(RunFault::Read)
}

// Reads the next piece of the input, where no reply waits to be written. All reads of a run are made here.
fn read_piece<S: Source>(reader: &mut S, waiting: &[u8], piece: &mut [u8]) -> Result<usize, Failed>
    requires nothing_waits { waiting.now ≡ [] }
    requires countable { S.reads reader.old < 2 ^ 64 - 1 }
    ensures within { ReadsAtMost result piece.new }
    ensures bytes { ReadConsumes (S.left reader.old) (S.left reader.new) result piece.new }
    ensures counted { S.reads reader.new ≡ S.reads reader.old + 1 }
    ensures end { IfOk result (λ count. S.ended reader.new ≡ (S.ended reader.old || comes_to_end count (length piece.old))) }
    ensures going { OnErr result (S.ended reader.new ≡ S.ended reader.old) }
    ensures ok { OnOk result (S.failed reader.new ≡ S.failed reader.old) }
    ensures err { OnErr result (S.failed reader.new ≡ true) }
{
    prove!(waiting.is_empty());
    reader.read(piece)
}

// A session with the empty policy set, an empty line buffer, and a buffer for a piece of the input.
fn prepared(
    alloc: Global,
    language: Language,
    force_complain: bool,
) -> Result<(Session, LineBuffer, Vec<u8>), AllocError>
    ensures session { IfOk result (λ made. IsFresh (new_manager_in language force_complain) made.0 made.1) }
    ensures counted { IfOk result (λ made. counted made.0 ≡ 0) }
    ensures nothing_waits { IfOk result (λ made. made.0.waiting.items ≡ []) }
    ensures piece { IfOk result (λ made. vec_len made.2 ≡ piece_size) }
{
    let session = Session {
        manager: Manager::new_in(alloc, language, force_complain),
        waiting: Vec::with_capacity(alloc, PIECE)?,
        summary: Summary {
            accepted: 0,
            refused: 0,
        },
    };
    let held = LineBuffer::new(alloc)?;
    Ok((session, held, vec![in alloc; 0; PIECE]?))
}

// Answers each line that ends in a piece of the input, and writes all replies that wait.
fn turn<W: Sink>(
    files: &Files,
    session: &mut Session,
    held: &mut LineBuffer,
    writer: &mut W,
    piece: &[u8],
) -> Result<(), Failed>
    requires room { counted session.old + length piece.now < 2 ^ 64 }
    ensures ok { OnOk result (Feeds files.now (W.written writer.old) (W.written writer.new) session.old session.new held.old held.new piece.now) }
    ensures err { OnErr result (BreaksOff files.now (W.written writer.old) (W.written writer.new) session.old held.old piece.now) }
    // No reply waits for the next read.
    ensures written { OnOk result (session.new.waiting.items ≡ []) }
    ensures counted { counted session.new ≤ counted session.old + length piece.now }
    ensures flag { OnOk result (W.failed writer.new ≡ W.failed writer.old) }
    ensures fault { OnErr result (W.failed writer.new ≡ true) }
{
    feed(files, session, held, writer, piece)?;
    flush(writer, &mut session.waiting)
}

// Answers a line.
fn answer<W: Sink>(
    files: &Files,
    session: &mut Session,
    writer: &mut W,
    line: &[u8],
) -> Result<(), Failed>
    requires { counted session.old + 1 < 2 ^ 64 }
    ensures ok { OnOk result (AnswersLine files.now (W.written writer.old) (W.written writer.new) session.old session.new line.now) }
    ensures err { OnErr result (BreaksOffLine files.now (W.written writer.old) (W.written writer.new) session.old line.now) }
    ensures counted { counted session.new ≤ counted session.old + 1 }
    ensures flag { OnOk result (W.failed writer.new ≡ W.failed writer.old) }
    ensures fault { OnErr result (W.failed writer.new ≡ true) }
{
    let reply = reply_to(files, &mut session.manager, line);
    count(&mut session.summary, &reply);
    write_reply(writer, &mut session.waiting, files, &reply)
}

// Counts a reply.
fn count(summary: &mut Summary, reply: &Reply)
    requires { summary.old.accepted + summary.old.refused + 1 < 2 ^ 64 }
    ensures accepted { summary.new.accepted ≡ summary.old.accepted + count_by is_acceptance (reply.now ∷ []) }
    ensures refused { summary.new.refused ≡ summary.old.refused + count_by is_refusal (reply.now ∷ []) }
    ensures bound { summary.new.accepted + summary.new.refused ≤ summary.old.accepted + summary.old.refused + 1 }
{
    match reply {
        Reply::Silent => {}
        Reply::Done => summary.accepted += 1,
        Reply::Answered(_) => summary.accepted += 1,
        Reply::Refused(_) => summary.refused += 1,
    }
}

// Answers the line that ends here: what the line buffer holds of it, and its last bytes.
fn end_line<W: Sink>(
    files: &Files,
    session: &mut Session,
    held: &mut LineBuffer,
    writer: &mut W,
    last: &[u8],
) -> Result<(), Failed>
    requires room { counted session.old + 1 < 2 ^ 64 }
    requires one_line { list_any is_line_feed last.now ≡ false }
    ensures ok { OnOk result (EndsLine files.now (W.written writer.old) (W.written writer.new) session.old session.new held.old held.new last.now) }
    ensures err { OnErr result (BreaksOff files.now (W.written writer.old) (W.written writer.new) session.old held.old (line_with last.now)) }
    ensures counted { counted session.new ≤ counted session.old + 1 }
    ensures flag { OnOk result (W.failed writer.new ≡ W.failed writer.old) }
    ensures fault { OnErr result (W.failed writer.new ≡ true) }
{
    if held.is_empty() {
        return answer(files, session, writer, last);
    }
    held.keep(last);
    let outcome = answer(files, session, writer, held.as_slice());
    held.clear();
    outcome
}

// Answers each line that ends in a piece of the input, and keeps what follows the last one.
fn feed<W: Sink>(
    files: &Files,
    session: &mut Session,
    held: &mut LineBuffer,
    writer: &mut W,
    piece: &[u8],
) -> Result<(), Failed>
    requires room { counted session.old + length piece.now < 2 ^ 64 }
    ensures ok { OnOk result (Feeds files.now (W.written writer.old) (W.written writer.new) session.old session.new held.old held.new piece.now) }
    ensures err { OnErr result (BreaksOff files.now (W.written writer.old) (W.written writer.new) session.old held.old piece.now) }
    ensures counted { counted session.new ≤ counted session.old + length piece.now }
    ensures flag { OnOk result (W.failed writer.new ≡ W.failed writer.old) }
    ensures fault { OnErr result (W.failed writer.new ≡ true) }
{
    let mut rest = piece;
    while let Some((last, after)) = first_line(rest) {
        end_line(files, session, held, writer, last)?;
        rest = after;
    }
    held.keep(rest);
    Ok(())
}

// Answers a line that the input's end leaves unfinished, and writes all replies that wait.
fn finish<W: Sink>(
    files: &Files,
    session: &mut Session,
    held: &LineBuffer,
    writer: &mut W,
) -> Result<(), Failed>
    requires { counted session.old + 1 < 2 ^ 64 }
    ensures ok { OnOk result (EndsInput files.now (W.written writer.old) (W.written writer.new) session.old held.now session.new.summary) }
    ensures err { OnErr result (BreaksOffEnd files.now (W.written writer.old) (W.written writer.new) session.old held.now) }
    ensures flag { OnOk result (W.failed writer.new ≡ W.failed writer.old) }
    ensures fault { OnErr result (W.failed writer.new ≡ true) }
{
    if held.is_empty() {
        return flush(writer, &mut session.waiting);
    }
    answer(files, session, writer, held.as_slice())?;
    flush(writer, &mut session.waiting)
}
