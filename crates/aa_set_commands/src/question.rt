//! Questions that commands ask.

ghost use Rattle.std.specs.Prelude.{◌≡◌, ◌==◌, ◌<◌, [], ◌∷◌, Ok, Err, IfOk, IfErr, IfSome, map, codes};
ghost use Rattle.std.specs.Str.{bytes_eq};
ghost use Rattle.aa_bytes.specs.Texts.{has_byte};
ghost use Rattle.aa_profile_data.specs.Access.{needs_of};
ghost use Rattle.aa_set_commands.specs.Question.{seen_question, capability_question, exec_question, file_question, is_path, owned_of};
ghost use Rattle.aa_set_commands.specs.Question.{question_of, socket_question, type_number, IsWellFormed};
ghost use Rattle.aa_profile_data.specs.Capabilities.{capability_number};
ghost use Rattle.aa_profile_data.specs.Domains.{domain_number};

use crate::refusal::{Refusal, RefusalKind, plain};
use aa_bytes::begins_with_byte;
use aa_profile_data::{
    Perms, capability_number, domain_number, is_protocol, kind_number, which_numbers_names_have,
};
use memchr::memchr;

/// A question to a policy set.
#[derive(Clone, Copy, Debug, PartialEq, Eq)]
pub enum Question<'a> {
    /// Whether a task may use a file.
    File {
        /// The full name of the profile, child or hat that confines the task, or the word `unconfined`.
        who: &'a [u8],
        /// What the task needs: at least one letter.
        needs: Perms,
        /// Whether the task's user owns the file.
        owned: bool,
        /// The file's path, that of a directory with a slash at its end.
        path: &'a [u8],
    },
    /// Under which profile a program runs that a task starts.
    Exec {
        /// The full name of the profile, child or hat that confines the task, or the word `unconfined`.
        who: &'a [u8],
        /// Whether the task's user owns the program's file.
        owned: bool,
        /// The program's path.
        path: &'a [u8],
    },
    /// Whether a task may use a capability.
    Cap {
        /// The full name of the profile, child or hat that confines the task, or the word `unconfined`.
        who: &'a [u8],
        /// The capability's number, from 0 to 40.
        number: u8,
    },
    /// Whether a task may use sockets.
    Net {
        /// The full name of the profile, child or hat that confines the task, or the word `unconfined`.
        who: &'a [u8],
        /// The number of the sockets' domain, from 0 to 43.
        domain: u8,
        /// The number of their type, from 0 to 5.
        kind: u8,
    },
}

impl<'a> Question<'a> {
    /// The question of the words after `ask`, each with the asker's full name or `unconfined`: `file`, the asker, the access letters, `owner` or
    /// `other`, and the path; `exec`, the asker, `owner` or `other`, and the program's path; `cap`, the asker, and the capability's name; or `net`,
    /// the asker, and the names of the domain and the type. It takes no memory.
    ///
    /// # Errors
    ///
    /// - `BadCommand` for another kind of question or another number of words.
    /// - Then `BadRequest` where a letter is unknown or repeated or there is none, where the owner's word is another, where the path doesn't begin
    ///   with `/` or holds a zero byte, and where no capability, domain or type has the name.
    pub fn read(words: &[&'a [u8]]) -> Result<Question<'a>, Refusal>
        ensures ok { IfOk result (λ question. question_of (map (λ word. word.now) words.now) ≡ Ok (seen_question question)) }
        ensures refused { IfErr result (λ refusal. question_of (map (λ word. word.now) words.now) ≡ Err refusal) }
        ensures known { IfOk result (λ question. IsWellFormed question) }
    {
        match words {
            [kind, who, name] => of_three_words(kind, who, name),
            [kind, who, third, fourth] => of_four_words(kind, who, third, fourth),
            [kind, who, access, owner, path] => of_five_words(kind, who, access, owner, path),
            _ => Err(plain(RefusalKind::BadCommand)),
        }
    }
}

// The question of three words: for a capability.
fn of_three_words<'a>(kind: &[u8], who: &'a [u8], name: &[u8]) -> Result<Question<'a>, Refusal>
    ensures ok { IfOk result (λ question. question_of (kind.now ∷ who.now ∷ name.now ∷ []) ≡ Ok (seen_question question)) }
    ensures refused { IfErr result (λ refusal. question_of (kind.now ∷ who.now ∷ name.now ∷ []) ≡ Err refusal) }
    ensures known { IfOk result (λ question. IsWellFormed question) }
{
    if kind != b"cap".as_slice() {
        return Err(plain(RefusalKind::BadCommand));
    }
    capability_question(who, name)
}

// The question of four words: for sockets, or about a program that is started.
fn of_four_words<'a>(
    kind: &[u8],
    who: &'a [u8],
    third: &[u8],
    fourth: &'a [u8],
) -> Result<Question<'a>, Refusal>
    ensures ok { IfOk result (λ question. question_of (kind.now ∷ who.now ∷ third.now ∷ fourth.now ∷ []) ≡ Ok (seen_question question)) }
    ensures refused { IfErr result (λ refusal. question_of (kind.now ∷ who.now ∷ third.now ∷ fourth.now ∷ []) ≡ Err refusal) }
    ensures known { IfOk result (λ question. IsWellFormed question) }
{
    if kind == b"net".as_slice() {
        socket_question(who, third, fourth)
    } else if kind == b"exec".as_slice() {
        exec_question(who, third, fourth)
    } else {
        Err(plain(RefusalKind::BadCommand))
    }
}

// The question of five words: for a file.
fn of_five_words<'a>(
    kind: &[u8],
    who: &'a [u8],
    access: &[u8],
    owner: &[u8],
    path: &'a [u8],
) -> Result<Question<'a>, Refusal>
    ensures ok { IfOk result (λ question. question_of (kind.now ∷ who.now ∷ access.now ∷ owner.now ∷ path.now ∷ []) ≡ Ok (seen_question question)) }
    ensures refused { IfErr result (λ refusal. question_of (kind.now ∷ who.now ∷ access.now ∷ owner.now ∷ path.now ∷ []) ≡ Err refusal) }
    ensures known { IfOk result (λ question. IsWellFormed question) }
{
    if kind != b"file".as_slice() {
        return Err(plain(RefusalKind::BadCommand));
    }
    file_question(who, access, owner, path)
}

// The question for a capability, of the words after `cap`.
fn capability_question<'a>(who: &'a [u8], name: &[u8]) -> Result<Question<'a>, Refusal>
    ensures ok { IfOk result (λ question. capability_question who.now (capability_number name.now) ≡ Ok (seen_question question)) }
    ensures refused { IfErr result (λ refusal. capability_question who.now (capability_number name.now) ≡ Err refusal) }
    ensures known { IfOk result (λ question. IsWellFormed question) }
{
    let Some(number) = capability_number(name) else {
        return Err(plain(RefusalKind::BadRequest));
    };
    which_numbers_names_have();
    Ok(Question::Cap { who, number })
}

/// The number of the type of sockets of a name, which is no protocol's (apparmor.d(5), "Network Rules"). `None` for any other name. It takes no
/// memory.
pub fn type_number(name: &[u8]) -> Option<u8>
    ensures number { result ≡ type_number name.now }
    ensures known { IfSome result (λ kind. kind < 6) }
{
    let kind = kind_number(name)?;
    if is_protocol(kind) { None } else { Some(kind) }
}

// The question for sockets, of the words after `net`.
fn socket_question<'a>(who: &'a [u8], domain: &[u8], sort: &[u8]) -> Result<Question<'a>, Refusal>
    ensures ok { IfOk result (λ question. socket_question who.now (domain_number domain.now) (type_number sort.now) ≡ Ok (seen_question question)) }
    ensures refused { IfErr result (λ refusal. socket_question who.now (domain_number domain.now) (type_number sort.now) ≡ Err refusal) }
    ensures known { IfOk result (λ question. IsWellFormed question) }
{
    let Some(domain) = domain_number(domain) else {
        return Err(plain(RefusalKind::BadRequest));
    };
    let Some(kind) = type_number(sort) else {
        return Err(plain(RefusalKind::BadRequest));
    };
    which_numbers_names_have();
    Ok(Question::Net { who, domain, kind })
}

// The question for a file, of the words after `file`.
fn file_question<'a>(
    who: &'a [u8],
    access: &[u8],
    owner: &[u8],
    path: &'a [u8],
) -> Result<Question<'a>, Refusal>
    ensures ok { IfOk result (λ question. file_question who.now (needs_of access.now) (owned_of owner.now) path.now ≡ Ok (seen_question question)) }
    ensures refused { IfErr result (λ refusal. file_question who.now (needs_of access.now) (owned_of owner.now) path.now ≡ Err refusal) }
    ensures known { IfOk result (λ question. IsWellFormed question) }
{
    let Some(needs) = Perms::of_letters(access) else {
        return Err(plain(RefusalKind::BadRequest));
    };
    let Some(owned) = read_owned(owner) else {
        return Err(plain(RefusalKind::BadRequest));
    };
    if !is_path(path) {
        return Err(plain(RefusalKind::BadRequest));
    }
    Ok(Question::File {
        who,
        needs,
        owned,
        path,
    })
}

// The question about a program that is started, of the words after `exec`.
fn exec_question<'a>(who: &'a [u8], owner: &[u8], path: &'a [u8]) -> Result<Question<'a>, Refusal>
    ensures ok { IfOk result (λ question. exec_question who.now (owned_of owner.now) path.now ≡ Ok (seen_question question)) }
    ensures refused { IfErr result (λ refusal. exec_question who.now (owned_of owner.now) path.now ≡ Err refusal) }
    ensures known { IfOk result (λ question. IsWellFormed question) }
{
    match read_owned(owner) {
        Some(owned) if is_path(path) => Ok(Question::Exec { who, owned, path }),
        _ => Err(plain(RefusalKind::BadRequest)),
    }
}

// Whether a word says that the file is owned.
fn read_owned(word: &[u8]) -> Option<bool>
    ensures { result ≡ owned_of word.now }
{
    if word == b"owner".as_slice() {
        Some(true)
    } else if word == b"other".as_slice() {
        Some(false)
    } else {
        None
    }
}

/// Whether a word is a path, as a question has it: it begins with `/`, and has no byte 0. It takes no memory.
pub fn is_path(word: &[u8]) -> bool
    ensures { result ≡ is_path word.now }
{
    begins_with_byte(b'/', word) && !has_zero(word)
}

// Whether a word has a byte 0.
fn has_zero(word: &[u8]) -> bool
    ensures { result ≡ has_byte 0 word.now }
{
    match memchr(0, word) {
        Some(_) => true,
        None => false,
    }
}
