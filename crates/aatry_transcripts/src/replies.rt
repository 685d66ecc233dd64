//! Where each reply ends in a run's output.

ghost use Rattle.std.specs.Prelude.{◌≡◌, ◌≤◌, length, take, not};
ghost use Rattle.std.specs.List.{list_any, prefix_len};
ghost use Rattle.aatry_transcripts.specs.Replies.{begins_reply, is_audit_line, reply_size, reply_to, told_next};
ghost use Rattle.aatry_transcripts.specs.Transcripts.{is_command, texts};

use crate::transcripts::{command_in, is_blank, is_command};
use aa_bytes::begins_with;

/// Whether a line is an audit line, which follows an answer that is logged.
pub fn is_audit_line(line: &[u8]) -> bool
    ensures { result ≡ is_audit_line line.now }
{
    begins_with(b"apparmor=", line)
}

/// Whether a line begins a reply.
pub fn begins_reply(line: &[u8]) -> bool
    ensures { result ≡ begins_reply line.now }
{
    match line {
        [b'a'..=b'z', ..] => !is_audit_line(line),
        _ => false,
    }
}

// How many lines come before one that begins a reply.
fn size_before_reply(lines: &[&[u8]]) -> usize
    ensures value { result ≡ prefix_len (λ line. not (begins_reply line)) (texts lines.now) }
    ensures within { result ≤ length lines.now }
{
    let mut size = 0;
    for line in lines {
        if begins_reply(line) {
            return size;
        }
        size += 1;
    }
    size
}

// How many lines make the reply that begins with the first.
fn reply_size(lines: &[&[u8]]) -> usize
    ensures value { result ≡ reply_size (texts lines.now) }
    ensures within { result ≤ length lines.now }
{
    match lines {
        [_, behind @ ..] => 1 + size_before_reply(behind),
        [] => 0,
    }
}

/// Whether some line holds a command.
pub fn has_command(lines: &[&[u8]]) -> bool
    ensures { result ≡ list_any is_command (texts lines.now) }
{
    for line in lines {
        if is_command(line) {
            return true;
        }
    }
    false
}

// How many lines make the reply to the command of a line, of the output from there on.
fn size_of_reply(line: &[u8], told: &[&[u8]]) -> usize
    ensures value { take result (texts told.now) ≡ reply_to line.now (texts told.now) }
    ensures within { result ≤ length told.now }
{
    if is_blank(command_in(line)) {
        0
    } else {
        reply_size(told)
    }
}

/// How many lines are the output for a line, of the output from there on; `behind` are the lines that follow it.
pub fn told_size(line: &[u8], behind: &[&[u8]], told: &[&[u8]]) -> usize
    ensures value { take result (texts told.now) ≡ told_next line.now (texts behind.now) (texts told.now) }
    ensures within { result ≤ length told.now }
{
    if !is_command(line) {
        0
    } else if has_command(behind) {
        size_of_reply(line, told)
    } else {
        told.len()
    }
}
