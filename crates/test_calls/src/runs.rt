//! Runs over readers and writers of few bytes a call, and over some that fail.

use crate::fakes::{Slow, Small, Undoing};
use aa_set::{FromRead, RunFault, Sink, Source, Summary, ToWrite, run, run_with};
use aa_text::Files;
use std::alloc::Global;

// The reply to each line: nothing was changed.
const REPLY: &[u8] = b"refused 63 NothingToUndo\n";

// Whether bytes are so many replies.
fn are_replies(written: &[u8], count: usize) -> bool {
    written.chunks(REPLY.len()).all(|reply| reply == REPLY) && written.len() / REPLY.len() == count
}

// Whether a reader of so many bytes, one a read, is answered line by line, by so many reads.
fn answers_bytes(alloc: Global, count: usize, lines: u64, reads: u64) -> bool {
    let files = Files::new(alloc);
    let mut reader = FromRead::new(Undoing {
        at: 0,
        count,
        fails: false,
    });
    let mut writer = ToWrite::new(Vec::new(alloc));
    let outcome = run(alloc, &files, false, &mut reader, &mut writer);
    let want = Summary {
        accepted: 0,
        refused: lines,
    };
    outcome == Ok(want) && reader.ended() && reader.reads() == reads
}

// The replies that are written where a reader fails after so many bytes.
fn answers_until_the_fault(alloc: Global, count: usize, lines: usize) -> bool {
    let files = Files::new(alloc);
    let mut reader = FromRead::new(Undoing {
        at: 0,
        count,
        fails: true,
    });
    let mut writer = ToWrite::new(Vec::new(alloc));
    let outcome = run(alloc, &files, false, &mut reader, &mut writer);
    outcome == Err(RunFault::Read)
        && reader.failed()
        && !reader.ended()
        && are_replies(writer.into_inner().as_slice(), lines)
}

// A slice as a writer has room for five bytes: the front that fits is written.
fn fills_a_slice(alloc: Global) -> bool {
    let files = Files::new(alloc);
    let mut room = [b'.'; 5];
    let mut writer = ToWrite::new(room.as_mut_slice());
    let mut reader = FromRead::new(b"undo\nundo\n".as_slice());
    let outcome = run(alloc, &files, false, &mut reader, &mut writer);
    outcome == Err(RunFault::Write) && writer.failed() && reader.reads() == 1 && room == *b"refus"
}

// A sink that takes a byte a call, and then fails.
fn fills_a_slow_sink(alloc: Global) -> bool {
    let files = Files::new(alloc);
    let mut writer = Slow::new();
    let mut reader = FromRead::new(b"undo\n".as_slice());
    let outcome = run(alloc, &files, false, &mut reader, &mut writer);
    outcome == Err(RunFault::Write) && writer.failed() && writer.taken == *b"refused "
}

// A writer that takes a byte a write, and then fails or takes nothing.
fn fills_a_small_writer(alloc: Global, fails: bool) -> bool {
    let files = Files::new(alloc);
    let mut writer = ToWrite::new(Small::new(fails));
    let mut reader = FromRead::new(b"undo\n".as_slice());
    let outcome = run(alloc, &files, false, &mut reader, &mut writer);
    outcome == Err(RunFault::Write) && writer.into_inner().taken == *b"refused "
}

// Whether each reader is answered: whole lines alone, up to a fault.
fn answers_readers(alloc: Global) -> bool {
    answers_bytes(alloc, 70_000, 14_000, 70_001)
        && answers_until_the_fault(alloc, 69_999, 13_999)
        && answers_until_the_fault(alloc, 0, 0)
}

#[test]
fn readers_of_a_byte_a_call_are_answered(rt: HostRuntime) {
    assert!(rt; answers_readers(rt.alloc()));
}

// Whether each writer is filled as far as it has room.
fn fills_writers(alloc: Global) -> bool {
    fills_a_slice(alloc)
        && fills_a_slow_sink(alloc)
        && fills_a_small_writer(alloc, true)
        && fills_a_small_writer(alloc, false)
}

#[test]
fn writers_without_room_are_filled(rt: HostRuntime) {
    assert!(rt; fills_writers(rt.alloc()));
}

// Whether a run sees the end of its input by so many reads: the first gives a line, and the second ends it.
fn ends_within(alloc: Global, reads: u32) -> bool {
    let files = Files::new(alloc);
    let mut writer = ToWrite::new(Vec::new(alloc));
    let mut reader = FromRead::new(b"undo\n".as_slice());
    run_with(alloc, &files, false, reads, &mut reader, &mut writer).is_ok()
}

#[test]
fn a_run_reads_within_its_bound(rt: HostRuntime) {
    assert!(rt; !ends_within(rt.alloc(), 1));
    assert!(rt; ends_within(rt.alloc(), 2));
}
