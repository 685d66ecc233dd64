//! The lines that log answers, in the form of the kernel's log.

ghost use Rattle.std.specs.Prelude.{◌≡◌, ◌++◌, IfOk, IsSome, OnErr, OnOk};
ghost use Rattle.aa_profile_data.specs.Access.{letters_of};
ghost use Rattle.aa_decide_rules.specs.LogLines.{beginning, capability_subject, exec_line, file_subject, log_line};
ghost use Rattle.aa_decide_rules.specs.LogLines.{mask_key, operation, socket_subject, subject, tag_word};
ghost use Rattle.aa_profile_data.specs.SeenRequests.{request_of};
ghost use Rattle.aa_profile_data.specs.TableNames.{name_or_none};
ghost use Rattle.aa_bytes.specs.Quoting.{quoted, written_text};
ghost use Rattle.std.specs.Fmt.{decimal};
ghost use Rattle.std.specs.Option.{option_map};

use crate::exec_verdict::ExecVerdict;
use crate::verdict::{Tag, Verdict};
use aa_bytes::{push_quoted, push_text, written_size};
use aa_profile_data::{Perms, Request, capability_name, domain_name, kind_name};
use itoa::Buffer;
use std::alloc::{AllocError, Global};

// The most bytes that a line has without the names and paths in it: keys, masks, and names of tables.
const MOST_KEYS: usize = 128;

impl Tag {
    /// The word for it in lines, in ASCII letters.
    pub fn word(self) -> &'static str
        ensures { result.now ≡ tag_word self }
    {
        match self {
            Tag::Denied => "DENIED",
            Tag::Allowed => "ALLOWED",
            Tag::Audit => "AUDIT",
        }
    }
}

// The operation that a request is logged as.
fn operation(request: &Request<'_>) -> &'static str
    ensures { result.now ≡ operation (request_of request.entry.now) }
{
    match request {
        Request::File { .. } => "file",
        Request::Cap(_) => "capable",
        Request::Net { .. } => "net",
    }
}

// The key of the mask in a line with this tag.
fn mask_key(tag: Tag) -> &'static str
    ensures { result.now ≡ mask_key tag }
{
    match tag {
        Tag::Audit => " audit_mask=",
        _ => " denied_mask=",
    }
}

// Appends a key and a name in quotes to a line.
fn push_name(line: &mut Vec<u8>, key: &str, name: &str) -> Result<(), AllocError>
    ensures { OnOk result (line.new.items ≡ line.old.items ++ key.now ++ quoted name.now) }
{
    line.extend_from_slice(key.as_bytes())?;
    push_quoted(line, name.as_bytes())
}

// Appends a key and a name of a table to a line; the name is empty where the number has none.
fn push_table_name(line: &mut Vec<u8>, key: &str, name: Option<&str>) -> Result<(), AllocError>
    ensures { OnOk result (line.new.items ≡ line.old.items ++ key.now ++ quoted (name_or_none (option_map (λ name. name.now) name.entry))) }
{
    match name {
        Some(name) => push_name(line, key, name),
        None => push_name(line, key, ""),
    }
}

// Appends a key and a text, as it is printed, to a line.
fn push_written(line: &mut Vec<u8>, key: &str, text: &[u8]) -> Result<(), AllocError>
    ensures { OnOk result (line.new.items ≡ line.old.items ++ key.now ++ written_text text.now) }
{
    line.extend_from_slice(key.as_bytes())?;
    push_text(line, text)
}

// Appends a key and the letters of a mask in quotes to a line.
fn push_mask(line: &mut Vec<u8>, key: &str, mask: Perms) -> Result<(), AllocError>
    ensures { OnOk result (line.new.items ≡ line.old.items ++ key.now ++ quoted (letters_of mask.0)) }
{
    line.extend_from_slice(key.as_bytes())?;
    line.push(b'"')?;
    mask.push_letters(line)?;
    line.push(b'"')?;
    Ok(())
}

// Appends the file that was asked for to a line, with the letters that were needed and those of the mask.
fn push_file(
    line: &mut Vec<u8>,
    path: &[u8],
    needs: Perms,
    tag: Tag,
    mask: Perms,
) -> Result<(), AllocError>
    ensures { OnOk result (line.new.items ≡ line.old.items ++ file_subject tag mask.0 needs.0 path.now) }
{
    push_written(line, " name=", path)?;
    push_mask(line, " requested_mask=", needs)?;
    push_mask(line, mask_key(tag), mask)
}

// Appends a key and a number in decimal to a line.
fn push_number(line: &mut Vec<u8>, key: &str, number: u8) -> Result<(), AllocError>
    ensures { OnOk result (line.new.items ≡ line.old.items ++ key.now ++ decimal number) }
{
    let mut digits = Buffer::new();
    line.extend_from_slice(key.as_bytes())?;
    line.extend_from_slice(digits.format(number).as_bytes())?;
    Ok(())
}

// Appends the capability that was asked for to a line.
fn push_capability(line: &mut Vec<u8>, number: u8) -> Result<(), AllocError>
    ensures { OnOk result (line.new.items ≡ line.old.items ++ capability_subject number) }
{
    push_number(line, " capability=", number)?;
    push_table_name(line, " capname=", capability_name(number))
}

// Appends the sockets that were asked for to a line.
fn push_sockets(line: &mut Vec<u8>, domain: u8, kind: u8) -> Result<(), AllocError>
    ensures { OnOk result (line.new.items ≡ line.old.items ++ socket_subject domain kind) }
{
    push_table_name(line, " family=", domain_name(domain))?;
    push_table_name(line, " sock_type=", kind_name(kind))
}

// Appends what was asked for to a line.
fn push_subject(
    line: &mut Vec<u8>,
    tag: Tag,
    mask: Perms,
    request: &Request<'_>,
) -> Result<(), AllocError>
    ensures { OnOk result (line.new.items ≡ line.old.items ++ subject tag mask.0 (request_of request.entry.now)) }
{
    match request {
        Request::File { needs, path, .. } => push_file(line, path, *needs, tag, mask),
        Request::Cap(number) => push_capability(line, *number),
        Request::Net { domain, kind } => push_sockets(line, *domain, *kind),
    }
}

// Appends the tag, the operation and the name of the asker to a line.
fn push_beginning(
    line: &mut Vec<u8>,
    tag: Tag,
    operation: &str,
    name: &[u8],
) -> Result<(), AllocError>
    ensures { OnOk result (line.new.items ≡ line.old.items ++ beginning tag operation.now name.now) }
{
    push_name(line, "apparmor=", tag.word())?;
    push_name(line, " operation=", operation)?;
    push_written(line, " profile=", name)
}

// How many bytes a line takes at most, by the name of the asker and what was asked for.
fn most_bytes(name: &[u8], request: &Request<'_>) -> usize {
    let path = match request {
        Request::File { path, .. } => written_size(path),
        _ => 0,
    };
    written_size(name)
        .saturating_add(path)
        .saturating_add(MOST_KEYS)
}

/// The audit line of a verdict, with its line feed: who asked, by full name, and for what (docs/commands.md, "Audit lines"). It is empty where the
/// verdict isn't logged, and then takes no memory. A number that isn't in its table has an empty name.
///
/// # Errors
///
/// Where memory runs out for a verdict with a tag; there is no error for one without.
pub fn log_line(
    alloc: Global,
    name: &[u8],
    request: &Request<'_>,
    verdict: &Verdict,
) -> Result<Vec<u8>, AllocError>
    ensures line { IfOk result (λ line. line.items ≡ log_line name.now (request_of request.entry.now) verdict.now) }
    ensures memory { OnErr result (IsSome verdict.now.tag) }
{
    let Some(tag) = verdict.tag else {
        return Ok(Vec::new(alloc));
    };
    let mut line = Vec::with_capacity(alloc, most_bytes(name, request))?;
    push_beginning(&mut line, tag, operation(request), name)?;
    push_subject(&mut line, tag, verdict.mask, request)?;
    line.push(b'\n')?;
    Ok(line)
}

/// The audit line of a verdict on the start of the program of a path, with its line feed: who asked, by full name, and for which program
/// (docs/commands.md, "Audit lines"). It is empty where the verdict isn't logged, and then takes no memory.
///
/// # Errors
///
/// Where memory runs out for a verdict with a tag; there is no error for one without.
pub fn exec_line(
    alloc: Global,
    name: &[u8],
    path: &[u8],
    verdict: &ExecVerdict<'_>,
) -> Result<Vec<u8>, AllocError>
    ensures line { IfOk result (λ line. line.items ≡ exec_line name.now path.now verdict.now.verdict) }
    ensures memory { OnErr result (IsSome verdict.now.verdict.tag) }
{
    let Some(tag) = verdict.verdict.tag else {
        return Ok(Vec::new(alloc));
    };
    let size = written_size(name).saturating_add(written_size(path));
    let mut line = Vec::with_capacity(alloc, size.saturating_add(MOST_KEYS))?;
    push_beginning(&mut line, tag, "exec", name)?;
    push_file(&mut line, path, Perms::EXEC, tag, verdict.verdict.mask)?;
    line.push(b'\n')?;
    Ok(line)
}
