//! What lines of a log hold.

ghost use Rattle.std.specs.Prelude.{◌≡◌, codes, option_map, IfOk};
ghost use Rattle.aa_profile_data.specs.Stacks.{parts_of};
ghost use Rattle.aatry_log_lines.specs.Lines.{One, are_several, asked_by, asked_of, asker_of, has_asked_class, has_word, is_disconnected, is_learning};
ghost use Rattle.aatry_log_lines.specs.Lines.{is_local, is_of_host, is_of_learning, labelled, owned_in};
ghost use Rattle.aatry_log_lines.specs.Lines.{file_told, quoted_at, request_told, seen_line, sockets_told, tells_else, tells_request, text_at};
ghost use Rattle.aatry_log_lines.specs.Lines.{told_as_program, told_by, told_by_message, told_interpreted, told_of};
ghost use Rattle.aatry_log_lines.specs.code.Askers.{seen_asker};
ghost use Rattle.aatry_log_lines.specs.LoggedQuestions.{seen_logged};
ghost use Rattle.aatry_log_lines.specs.Pairs.{value_of};
ghost use Rattle.aatry_log_lines.specs.Values.{seen_text};

use crate::asked::LoggedQuestion;
use crate::logged_questions::{capability_asked, file_asked, sockets_asked};
use crate::messages::{Message, message_in};
use crate::pairs::value_of;
use crate::values::{LoggedText, quoted_text, text_of};
use aa_bytes::begins_with;
use aa_profile_data::first_member;
use std::alloc::{AllocError, Global};

/// What a line of a kernel's log holds.
#[derive(Drop)]
pub enum LogLine<'a> {
    /// A request, as this question asks it.
    Asks(LoggedQuestion<'a>),
    /// A request of a kind that no question asks, as for a signal or a mount.
    OtherRequest,
    /// A request for a file of which the kernel knew no whole path, as its words `disconnected path` say.
    Disconnected,
    /// A request of a learning profile, such as `NAME//null-PATH`: of a program at PATH that NAME started in complain mode, where no rule of NAME
    /// allows it.
    Learning,
    /// No request: it has nothing of AppArmor, or logs that policy was loaded, or the like.
    NoRequest,
    /// Something of AppArmor that can't be read: a value is missing or in no known form, or is no word that is known there, or the path or the mask
    /// is none that a question can have.
    Unreadable,
    /// A request that can't be read, since its values are written without quotes, as `ausearch -i` does it.
    Interpreted,
}

// Whether a word is the answer to a request.
pub fn tells_request(word: &[u8]) -> bool
    ensures { result ≡ tells_request word.now }
{
    word == b"DENIED".as_slice()
        || word == b"ALLOWED".as_slice()
        || word == b"AUDIT".as_slice()
        || word == b"KILLED".as_slice()
}

// Whether a word says that a line logs no request.
fn tells_else(word: &[u8]) -> bool
    ensures { result ≡ tells_else word.now }
{
    word == b"STATUS".as_slice() || word == b"HINT".as_slice() || word == b"ERROR".as_slice()
}

// The text of a key's value, if both are there.
fn text_at<'a>(
    alloc: Global,
    line: &'a [u8],
    key: &[u8],
) -> Result<Option<LoggedText<'a>>, AllocError>
    ensures { IfOk result (λ found. option_map seen_text found ≡ text_at key.now line.now) }
{
    match value_of(line, key) {
        Some(value) => text_of(alloc, value),
        None => Ok(None),
    }
}

// The text of a key's value that is always in quotes, if both are there.
fn quoted_at<'a>(line: &'a [u8], key: &[u8]) -> Option<&'a [u8]>
    ensures { option_map (λ text. text.now) result ≡ quoted_at key.now line.now }
{
    quoted_text(value_of(line, key)?)
}

// Whether a line's request is decided by the host's own policy.
fn is_of_host(line: &[u8]) -> bool
    ensures { result ≡ is_of_host line.now }
{
    match value_of(line, b"namespace=") {
        Some(value) => value == b"\"root\"".as_slice(),
        None => true,
    }
}

// Whether a line's class, if it has one, is one of requests that questions ask.
fn has_asked_class(line: &[u8]) -> bool
    ensures { result ≡ has_asked_class line.now }
{
    match value_of(line, b"class=") {
        Some(value) => {
            value == b"\"file\"".as_slice()
                || value == b"\"cap\"".as_slice()
                || value == b"\"net\"".as_slice()
        }
        None => true,
    }
}

// The asker.
#[derive(Drop)]
pub enum Asker<'a> {
    One(Option<LoggedText<'a>>),
    Several,
}

// Whether a label is that of several profiles at once.
fn is_of_several(label: &[u8]) -> bool
    ensures { result ≡ are_several (parts_of label.now) }
{
    let (_, others) = first_member(label);
    others.is_some()
}

// The asker of a label.
fn labelled(label: Option<LoggedText<'_>>) -> Asker<'_>
    ensures { seen_asker result ≡ labelled (option_map seen_text label.entry) }
{
    match label {
        Some(text) if is_of_several(text.as_slice()) => Asker::Several,
        label => Asker::One(label),
    }
}

// The asker of a line.
pub fn asker_of(alloc: Global, line: &[u8]) -> Result<Asker<'_>, AllocError>
    ensures { IfOk result (λ asker. seen_asker asker ≡ asker_of line.now) }
{
    if let Some(value) = value_of(line, b"profile=") {
        return Ok(Asker::One(text_of(alloc, value)?));
    }
    Ok(labelled(text_at(alloc, line, b"label=")?))
}

// Whether the task's user owns the file, if a line isn't cut off there.
fn owned_in(line: &[u8]) -> Option<bool>
    ensures { result ≡ owned_in line.now }
{
    match (value_of(line, b"fsuid="), value_of(line, b"ouid=")) {
        (None, None) => Some(false),
        (Some(user), Some(owner)) => Some(user == owner),
        _ => None,
    }
}

// Whether a line contains a word, which no earlier word of the line begins with.
fn has_word(line: &[u8], word: &[u8]) -> bool
    ensures { result ≡ has_word word.now line.now }
{
    match value_of(line, word) {
        Some(rest) => rest.is_empty(),
        None => false,
    }
}

// Whether a line says that the kernel knew no whole path.
fn is_disconnected(line: &[u8]) -> bool
    ensures { result ≡ is_disconnected line.now }
{
    match value_of(line, b"info=") {
        Some(value) => value == b"\"Failed".as_slice() && has_word(line, b"disconnected"),
        None => false,
    }
}

// Whether a name is that of a learning profile.
fn is_learning(name: &[u8]) -> bool
    ensures { result ≡ is_learning name.now }
{
    let mut rest = name;
    while let [_, behind @ ..] = rest {
        if begins_with(b"//null-", rest) {
            return true;
        }
        rest = behind;
    }
    false
}

// Whether the asker of a line is a learning profile.
fn is_of_learning(line: &[u8], who: &Option<LoggedText<'_>>) -> bool
    ensures { result ≡ is_of_learning line.now (option_map seen_text who.now) }
{
    match who {
        Some(name) => value_of(line, b"pid=").is_some() && is_learning(name.as_slice()),
        None => false,
    }
}

// Whether a line is of a socket that `unix` rules decide.
fn is_local(line: &[u8], family: &[u8]) -> bool
    ensures { result ≡ is_local line.now family.now }
{
    if family != b"\"unix\"".as_slice() {
        return false;
    }
    match value_of(line, b"operation=") {
        Some(value) => value != b"\"net\"".as_slice(),
        None => true,
    }
}

// A question as what a line holds, if it can be asked.
fn told_of(question: Option<LoggedQuestion<'_>>) -> LogLine<'_>
    ensures { seen_line result ≡ told_of (option_map seen_logged question.entry) }
{
    match question {
        Some(question) => LogLine::Asks(question),
        None => LogLine::Unreadable,
    }
}

// What a line with a mask holds.
fn file_told<'a>(
    alloc: Global,
    line: &'a [u8],
    who: Option<LoggedText<'a>>,
    mask: &[u8],
) -> Result<LogLine<'a>, AllocError>
    ensures { IfOk result (λ told. seen_line told
        ≡ file_told line.now (option_map seen_text who.entry) mask.now (value_of (codes "name=") line.now)) }
{
    let Some(name) = value_of(line, b"name=") else {
        return Ok(LogLine::OtherRequest);
    };
    if is_disconnected(line) {
        return Ok(LogLine::Disconnected);
    }
    let path = text_of(alloc, name)?;
    Ok(told_of(file_asked(who, quoted_text(mask), owned_in(line), path)))
}

// What a line with the family of a socket holds.
fn sockets_told<'a>(line: &'a [u8], who: Option<LoggedText<'a>>, family: &[u8]) -> LogLine<'a>
    ensures { seen_line result ≡ sockets_told line.now (option_map seen_text who.entry) family.now }
{
    if is_local(line, family) {
        return LogLine::OtherRequest;
    }
    let sort = quoted_at(line, b"sock_type=");
    told_of(sockets_asked(who, quoted_text(family), sort))
}

// What a line holds that logs a request of one profile, which is no learning profile.
fn asked_of<'a>(
    alloc: Global,
    line: &'a [u8],
    who: Option<LoggedText<'a>>,
) -> Result<LogLine<'a>, AllocError>
    ensures { IfOk result (λ told. seen_line told ≡ asked_of line.now (option_map seen_text who.entry)) }
{
    if let Some(name) = value_of(line, b"capname=") {
        return Ok(told_of(capability_asked(who, quoted_text(name))));
    }
    if let Some(family) = value_of(line, b"family=") {
        return Ok(sockets_told(line, who, family));
    }
    match value_of(line, b"requested_mask=") {
        Some(mask) => file_told(alloc, line, who, mask),
        None => Ok(LogLine::OtherRequest),
    }
}

// What a line holds that logs a request of one profile.
fn asked_by_one<'a>(
    alloc: Global,
    line: &'a [u8],
    who: Option<LoggedText<'a>>,
) -> Result<LogLine<'a>, AllocError>
    ensures { IfOk result (λ told. seen_line told ≡ asked_by line.now (One (option_map seen_text who.entry))) }
{
    if is_of_learning(line, &who) {
        return Ok(LogLine::Learning);
    }
    asked_of(alloc, line, who)
}

// What a line holds that logs a request.
fn request_told(alloc: Global, line: &[u8]) -> Result<LogLine<'_>, AllocError>
    ensures { IfOk result (λ told. seen_line told ≡ request_told line.now) }
{
    if !is_of_host(line) || !has_asked_class(line) {
        return Ok(LogLine::OtherRequest);
    }
    match asker_of(alloc, line)? {
        Asker::One(who) => asked_by_one(alloc, line, who),
        Asker::Several => Ok(LogLine::OtherRequest),
    }
}

// What a line holds of a program that decides itself.
fn told_as_program<'a>(word: Option<&[u8]>) -> LogLine<'a>
    ensures { seen_line result ≡ told_as_program (option_map (λ word. word.now) word.entry) }
{
    match word {
        Some(word) if tells_request(word) => LogLine::OtherRequest,
        Some(word) if tells_else(word) => LogLine::NoRequest,
        _ => LogLine::Unreadable,
    }
}

// What a line holds whose pair of `apparmor` has a value without quotes.
fn told_interpreted<'a>(word: &[u8]) -> LogLine<'a>
    ensures { seen_line result ≡ told_interpreted word.now }
{
    if tells_request(word) {
        LogLine::Interpreted
    } else if tells_else(word) {
        LogLine::NoRequest
    } else {
        LogLine::Unreadable
    }
}

// What a message holds.
pub fn told_by_message(alloc: Global, message: &[u8]) -> Result<LogLine<'_>, AllocError>
    ensures { IfOk result (λ told. seen_line told ≡ told_by_message message.now) }
{
    let Some(value) = value_of(message, b"apparmor=") else {
        return Ok(match value_of(message, b"msg='apparmor=") {
            Some(value) => told_as_program(quoted_text(value)),
            None => LogLine::NoRequest,
        });
    };
    match quoted_text(value) {
        Some(word) if tells_request(word) => request_told(alloc, message),
        Some(word) if tells_else(word) => Ok(LogLine::NoRequest),
        Some(_) => Ok(LogLine::Unreadable),
        None => Ok(told_interpreted(value)),
    }
}

impl<'a> LogLine<'a> {
    /// What the line holds, copied so that it borrows from no line.
    ///
    /// # Errors
    ///
    /// Where memory runs out.
    pub fn into_owned<'b>(self, alloc: Global) -> Result<LogLine<'b>, AllocError>
        ensures { IfOk result (λ owned. seen_line owned ≡ seen_line self.entry) }
    {
        match self {
            LogLine::Asks(question) => Ok(LogLine::Asks(question.into_owned(alloc)?)),
            LogLine::OtherRequest => Ok(LogLine::OtherRequest),
            LogLine::Disconnected => Ok(LogLine::Disconnected),
            LogLine::Learning => Ok(LogLine::Learning),
            LogLine::NoRequest => Ok(LogLine::NoRequest),
            LogLine::Unreadable => Ok(LogLine::Unreadable),
            LogLine::Interpreted => Ok(LogLine::Interpreted),
        }
    }
}

/// What a line of a log holds, with or without its line's end: a line of a kernel's, as audit.log, syslog, `dmesg` and `journalctl` have it, or a
/// record of the system's journal, as `journalctl -o json` writes one. The line is any bytes. It takes memory only for the bytes of names that the
/// line has in hexadecimal, and for a record (docs/aatry.md, "What is read of a log").
///
/// # Errors
///
/// Where memory runs out.
pub fn told_by(alloc: Global, line: &[u8]) -> Result<LogLine<'_>, AllocError>
    ensures { IfOk result (λ told. seen_line told ≡ told_by line.now) }
{
    match message_in(alloc, line)? {
        Message::NoMessage => told_by_message(alloc, line),
        Message::Whole(message) => told_by_message(alloc, &message)?.into_owned(alloc),
        Message::Broken => Ok(LogLine::Unreadable),
    }
}
