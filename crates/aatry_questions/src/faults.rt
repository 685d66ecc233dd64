//! What is wrong with the words of a question.

ghost use Rattle.std.specs.Prelude.{◌≡◌, Some, map, option_map};
ghost use Rattle.aa_set_commands.specs.Question.{owned_of};
ghost use Rattle.aa_set_commands.specs.Refusal.{plain};
ghost use Rattle.aatry_questions.specs.Faults.{access_fault, exec_fault, first_fault, kind_fault, kind_of, letters_fault};
ghost use Rattle.aatry_questions.specs.Faults.{of_one, of_three, of_two, question_fault, refusal_of, seen_fault, socket_fault, unless};

use aa_profile_data::{Perms, capability_number, domain_number};
use aa_set_commands::{Refusal, RefusalKind, is_path, plain, type_number};
use bitflags::Flags;

/// A kind of questions.
#[derive(Clone, Copy, Debug, PartialEq, Eq)]
pub enum QuestionKind {
    /// `cap WHO NAME`: for a capability.
    Cap,
    /// `net WHO DOMAIN TYPE`: for sockets.
    Net,
    /// `exec WHO OWNED PATH`: about the start of a program.
    Exec,
    /// `file WHO ACCESS OWNED PATH`: for a file.
    File,
}

/// What is wrong with words that make no question.
#[derive(Clone, Copy, Debug, PartialEq, Eq)]
pub enum Wrong {
    /// The first word is no kind of questions.
    Kind,
    /// A question of this kind has more words, or fewer.
    Count(QuestionKind),
    /// ACCESS has no letter.
    NoLetter,
    /// A byte of ACCESS is no letter that a question may ask for.
    Letter,
    /// A letter of ACCESS is repeated.
    LetterTwice,
    /// OWNED is neither `owner` nor `other`.
    Owned,
    /// PATH doesn't begin with `/`, or has a byte 0.
    Path,
    /// No capability has this name.
    Capability,
    /// No domain of sockets has this name.
    Domain,
    /// No type of sockets has this name.
    SocketType,
    /// The one word is a line of a log that can't be read.
    UnreadableLine,
    /// The one word is a line of a log with a request of another kind.
    OtherLine,
    /// The one word is a line without a request.
    LineWithoutRequest,
}

/// What is wrong with the words of a question, and with which word, or with which byte of it.
#[derive(Clone, Copy, Debug, PartialEq, Eq)]
pub struct WordFault<'a> {
    /// What is wrong.
    pub wrong: Wrong,
    /// The word, or the byte of it. It is empty where the fault is in no single word, for example in how many there are.
    pub word: &'a [u8],
}

/// The refusal of a command with such words. It takes no memory.
pub fn refusal_of(wrong: Wrong) -> Refusal
    ensures { result ≡ plain (refusal_of wrong) }
{
    match wrong {
        Wrong::Kind | Wrong::Count(_) => plain(RefusalKind::BadCommand),
        _ => plain(RefusalKind::BadRequest),
    }
}

// A fault of a word, unless it is good.
fn unless<'a>(is_good: bool, wrong: Wrong, word: &'a [u8]) -> Option<WordFault<'a>>
    ensures { option_map seen_fault result ≡ unless is_good wrong word.entry.now }
{
    if is_good {
        None
    } else {
        Some(WordFault { wrong, word })
    }
}

// The first fault, or else the second.
fn first_fault<'a>(
    first: Option<WordFault<'a>>,
    second: Option<WordFault<'a>>,
) -> Option<WordFault<'a>>
    ensures { option_map seen_fault result ≡ first_fault (option_map seen_fault first.entry) (option_map seen_fault second.entry) }
{
    match first {
        Some(fault) => Some(fault),
        None => second,
    }
}

// What is wrong with the letters of an access.
fn letters_fault(letters: &[u8]) -> Option<WordFault<'_>>
    ensures { option_map seen_fault result ≡ letters_fault 0 letters.now }
{
    let mut set = Perms::empty();
    let mut rest = letters;
    while let [letter, behind @ ..] = rest {
        let Some(next) = Perms::of_letter(*letter) else {
            return Some(WordFault {
                wrong: Wrong::Letter,
                word: &rest[..1],
            });
        };
        if set.contains(next) {
            return Some(WordFault {
                wrong: Wrong::LetterTwice,
                word: &rest[..1],
            });
        }
        set = set.union(next);
        rest = behind;
    }
    None
}

// What is wrong with an access.
pub fn access_fault(access: &[u8]) -> Option<WordFault<'_>>
    ensures { option_map seen_fault result ≡ access_fault access.now }
{
    if access.is_empty() {
        return Some(WordFault {
            wrong: Wrong::NoLetter,
            word: access,
        });
    }
    letters_fault(access)
}

/// Whether a word says that the file is owned, or that it is another's. It takes no memory.
pub fn owned_of(word: &[u8]) -> Option<bool>
    ensures { result ≡ owned_of word.now }
{
    if word == b"owner".as_slice() {
        Some(true)
    } else if word == b"other".as_slice() {
        Some(false)
    } else {
        None
    }
}

// What is wrong with the words after `exec` and the asker.
fn exec_fault<'a>(owned: &'a [u8], path: &'a [u8]) -> Option<WordFault<'a>>
    ensures { option_map seen_fault result ≡ exec_fault owned.entry.now path.entry.now }
{
    first_fault(
        unless(owned_of(owned).is_some(), Wrong::Owned, owned),
        unless(is_path(path), Wrong::Path, path),
    )
}

// What is wrong with the words after `net` and the asker.
fn socket_fault<'a>(domain: &'a [u8], sort: &'a [u8]) -> Option<WordFault<'a>>
    ensures { option_map seen_fault result ≡ socket_fault domain.entry.now sort.entry.now }
{
    first_fault(
        unless(domain_number(domain).is_some(), Wrong::Domain, domain),
        unless(type_number(sort).is_some(), Wrong::SocketType, sort),
    )
}

/// The kind of questions that begin with a word, if there is one. It takes no memory.
pub fn kind_of(word: &[u8]) -> Option<QuestionKind>
    ensures { result ≡ kind_of word.now }
{
    if word == b"cap".as_slice() {
        Some(QuestionKind::Cap)
    } else if word == b"net".as_slice() {
        Some(QuestionKind::Net)
    } else if word == b"exec".as_slice() {
        Some(QuestionKind::Exec)
    } else if word == b"file".as_slice() {
        Some(QuestionKind::File)
    } else {
        None
    }
}

// What is wrong with the first word, or with how many follow it, where no question of its kind has so many.
fn kind_fault(kind: &[u8]) -> Option<WordFault<'_>>
    ensures { option_map seen_fault result ≡ Some (kind_fault kind.now) }
{
    match kind_of(kind) {
        Some(of_kind) => Some(WordFault {
            wrong: Wrong::Count(of_kind),
            word: b"",
        }),
        None => Some(WordFault {
            wrong: Wrong::Kind,
            word: kind,
        }),
    }
}

// What is wrong with one word after a kind and the asker, which names the capability of this number, if it names one.
pub fn of_one<'a>(kind: &'a [u8], name: &'a [u8], number: Option<u8>) -> Option<WordFault<'a>>
    ensures { option_map seen_fault result ≡ of_one kind.entry.now name.entry.now number }
{
    if kind == b"cap".as_slice() {
        return unless(number.is_some(), Wrong::Capability, name);
    }
    kind_fault(kind)
}

// What is wrong with two words after a kind and the asker.
fn of_two<'a>(kind: &'a [u8], first: &'a [u8], second: &'a [u8]) -> Option<WordFault<'a>>
    ensures { option_map seen_fault result ≡ of_two kind.entry.now first.entry.now second.entry.now }
{
    if kind == b"net".as_slice() {
        return socket_fault(first, second);
    }
    if kind == b"exec".as_slice() {
        return exec_fault(first, second);
    }
    kind_fault(kind)
}

// What is wrong with three words after a kind and the asker, of which the first is an access with this fault, if it has one.
pub fn of_three<'a>(
    kind: &'a [u8],
    access: Option<WordFault<'a>>,
    owned: &'a [u8],
    path: &'a [u8],
) -> Option<WordFault<'a>>
    ensures { option_map seen_fault result ≡ of_three kind.entry.now (option_map seen_fault access.entry) owned.entry.now path.entry.now }
{
    if kind == b"file".as_slice() {
        return first_fault(access, exec_fault(owned, path));
    }
    kind_fault(kind)
}

/// What is wrong with words after `ask`: nothing where they make a question (`aa_set_commands::Question::read`). It takes no memory.
///
/// The fault is `Kind` where the first word is no kind of questions, and `Count` where it is one that has more words, or fewer; and else that of the
/// first wrong word after the asker.
pub fn question_fault<'a>(words: &[&'a [u8]]) -> Option<WordFault<'a>>
    ensures { option_map seen_fault result ≡ question_fault (map (λ word. word.now) words.now) }
{
    match words {
        [] => Some(WordFault {
            wrong: Wrong::Kind,
            word: b"",
        }),
        [kind] => kind_fault(kind),
        [kind, _] => kind_fault(kind),
        [kind, _, name] => of_one(kind, name, capability_number(name)),
        [kind, _, first, second] => of_two(kind, first, second),
        [kind, _, access, owned, path] => of_three(kind, access_fault(access), owned, path),
        [kind, _, _, _, _, _, ..] => kind_fault(kind),
    }
}
