//! Readers and writers of the standard library as sources and sinks.

ghost use Rattle.std.specs.Prelude.{◌≡◌, ◌+◌, ◌<◌};

use crate::fakes::{Small, Undoing};
use aa_set::{Failed, FromRead, Sink, Source, ToWrite};
use std::alloc::Global;

// Whether a read gives these bytes.
fn gives<S: Source>(source: &mut S, want: &[u8]) -> bool
    requires { S.reads source.old < 10 }
    ensures { S.reads source.new ≡ S.reads source.old + 1 }
{
    let mut buffer = [0u8; 4];
    match source.read(&mut buffer) {
        Ok(count) => &buffer[..count] == want,
        Err(_) => false,
    }
}

// A source gives pieces to the end.
fn reads_pieces() -> bool {
    let mut source = FromRead::new(b"three".as_slice());
    let first = gives(&mut source, b"thre");
    let second = gives(&mut source, b"e");
    let goes_on = !source.ended();
    let last = gives(&mut source, b"");
    first && second && goes_on && last && source.ended() && source.reads() == 3 && !source.failed()
}

// A read that fails counts.
fn counts_failed_reads() -> bool {
    let reader = Undoing {
        at: 0,
        count: 1,
        fails: true,
    };
    let mut source = FromRead::new(reader);
    let mut buffer = [0u8; 4];
    let first = source.read(&mut buffer) == Ok(1) && !source.failed();
    let second = source.read(&mut buffer) == Err(Failed);
    first && second && source.reads() == 2 && source.failed()
}

// A sink appends to what the writer holds.
fn writes_behind(alloc: Global) -> bool {
    let Ok(held) = Vec::from_slice(alloc, b"a") else {
        return false;
    };
    let mut sink = ToWrite::new(held);
    let taken = sink.write(b"bc") == Ok(2) && !sink.failed();
    taken && sink.into_inner().as_slice() == b"abc".as_slice()
}

// A slice as a writer takes no byte where it has no room.
fn fails_without_room() -> bool {
    let mut room = [0u8; 1];
    let mut sink = ToWrite::new(room.as_mut_slice());
    let first = sink.write(b"ab") == Ok(1);
    first && sink.write(b"b") == Err(Failed) && sink.failed()
}

// The ninth byte of a writer that has room for eight.
fn fails_at_the_ninth(fails: bool) -> bool {
    let mut sink = ToWrite::new(Small::new(fails));
    for _ in 0..8 {
        if sink.write(b"ab") != Ok(1) {
            return false;
        }
    }
    sink.write(b"ab") == Err(Failed) && sink.failed()
}

// A write of one byte is no fault.
fn takes_one_byte() -> bool {
    let mut sink = ToWrite::new(Small::new(true));
    sink.write(b"ab") == Ok(1) && !sink.failed() && sink.into_inner().taken == *b"a......."
}

#[test]
fn sources_give_to_the_end_or_fail(rt: HostRuntime) {
    assert!(rt; reads_pieces() && counts_failed_reads());
}

// Whether sinks take what there is room for, and fail then.
fn takes_while_there_is_room(alloc: Global) -> bool {
    writes_behind(alloc)
        && fails_without_room()
        && fails_at_the_ninth(true)
        && fails_at_the_ninth(false)
        && takes_one_byte()
}

#[test]
fn sinks_take_what_there_is_room_for(rt: HostRuntime) {
    assert!(rt; takes_while_there_is_room(rt.alloc()));
}
