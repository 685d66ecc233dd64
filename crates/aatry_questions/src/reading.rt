//! Reading of the words of a question, which may be written like the kernel, its log and its tools write them.

ghost use Rattle.std.specs.Prelude.{◌≡◌, [], ◌∷◌, IfErr, IfOk, Err, Ok, Some, map, option_map};
ghost use Rattle.aa_set_commands.specs.Question.{IsWellFormed, file_question, owned_of, question_of, seen_question};
ghost use Rattle.aa_set_commands.specs.Refusal.{plain};
ghost use Rattle.aa_profile_data.specs.Capabilities.{capability_number};
ghost use Rattle.aatry_words.specs.Capabilities.{capability_meant};
ghost use Rattle.aatry_words.specs.Masks.{needs_meant};
ghost use Rattle.aatry_questions.specs.Faults.{of_one, refusal_of, seen_fault};
ghost use Rattle.aatry_questions.specs.Meant.{file_meant, mask_fault, meant_fault, needs_fault, question_meant};

use crate::faults::{WordFault, Wrong, access_fault, of_one, of_three, owned_of, question_fault};
use crate::laws::how_wrong_words_are_refused;
use aa_profile_data::capability_number;
use aa_set_commands::{Question, Refusal, RefusalKind, is_path, plain};
use aatry_words::{capability_meant, is_mask, need_of, needs_meant};

// The question for a file, of the words after `file`.
fn file_question<'a>(
    who: &'a [u8],
    access: &[u8],
    owned: &[u8],
    path: &'a [u8],
) -> Result<Question<'a>, Refusal>
    ensures ok { IfOk result (λ question. file_question who.now (needs_meant access.now) (owned_of owned.now) path.now ≡ Ok (seen_question question)) }
    ensures refused { IfErr result (λ refusal. file_question who.now (needs_meant access.now) (owned_of owned.now) path.now ≡ Err refusal) }
    ensures known { IfOk result (λ question. IsWellFormed question) }
{
    let Some(needs) = needs_meant(access) else {
        return Err(plain(RefusalKind::BadRequest));
    };
    let Some(owned) = owned_of(owned) else {
        return Err(plain(RefusalKind::BadRequest));
    };
    if !is_path(path) {
        return Err(plain(RefusalKind::BadRequest));
    }
    Ok(Question::File {
        who,
        needs,
        owned,
        path,
    })
}

// The question of five words.
fn file_meant<'a>(
    kind: &[u8],
    who: &'a [u8],
    access: &[u8],
    owned: &[u8],
    path: &'a [u8],
) -> Result<Question<'a>, Refusal>
    ensures ok { IfOk result (λ question. file_meant kind.now who.now access.now owned.now path.now ≡ Ok (seen_question question)) }
    ensures refused { IfErr result (λ refusal. file_meant kind.now who.now access.now owned.now path.now ≡ Err refusal) }
    ensures known { IfOk result (λ question. IsWellFormed question) }
{
    if kind == b"file".as_slice() {
        file_question(who, access, owned, path)
    } else {
        Err(plain(RefusalKind::BadCommand))
    }
}

// The question of three words.
fn of_name<'a>(kind: &'a [u8], who: &'a [u8], name: &'a [u8]) -> Result<Question<'a>, Refusal>
    ensures ok { IfOk result (λ question. question_of (kind.now ∷ who.now ∷ capability_meant name.now ∷ []) ≡ Ok (seen_question question)) }
    ensures refused { IfErr result (λ refusal. question_of (kind.now ∷ who.now ∷ capability_meant name.now ∷ []) ≡ Err refusal) }
    ensures known { IfOk result (λ question. IsWellFormed question) }
{
    Question::read(&[kind, who, capability_meant(name)])
}

/// The question that words mean: like the words after `ask` (`aa_set_commands::Question::read`), but the name of a capability may be written like
/// the kernel and its tools write it (`aatry_words::capability_meant`), and the access as a mask (`aatry_words::needs_meant`). It takes no memory.
///
/// # Errors
///
/// Those of `Question::read`: where a mask has an unknown letter `BadRequest`.
pub fn question_meant<'a>(words: &[&'a [u8]]) -> Result<Question<'a>, Refusal>
    ensures ok { IfOk result (λ question. question_meant (map (λ word. word.now) words.now) ≡ Ok (seen_question question)) }
    ensures refused { IfErr result (λ refusal. question_meant (map (λ word. word.now) words.now) ≡ Err refusal) }
    ensures known { IfOk result (λ question. IsWellFormed question) }
{
    match words {
        [kind, who, name] => of_name(kind, who, name),
        [kind, who, access, owned, path] => file_meant(kind, who, access, owned, path),
        [_, _, _, _] => Question::read(words),
        _ => Err(plain(RefusalKind::BadCommand)),
    }
}

// The first letter of a mask that is unknown.
fn mask_fault(mask: &[u8]) -> Option<WordFault<'_>>
    ensures { option_map seen_fault result ≡ mask_fault mask.now }
{
    let mut rest = mask;
    while let [letter, behind @ ..] = rest {
        if need_of(*letter).is_none() {
            return Some(WordFault {
                wrong: Wrong::Letter,
                word: &rest[..1],
            });
        }
        rest = behind;
    }
    None
}

// What is wrong with an access that a mask may be.
pub fn needs_fault(access: &[u8]) -> Option<WordFault<'_>>
    ensures { option_map seen_fault result ≡ needs_fault access.now }
{
    if is_mask(access) {
        mask_fault(access)
    } else {
        access_fault(access)
    }
}

// What is wrong with one word after a kind and the asker, which may be written like the kernel writes it.
fn name_fault<'a>(kind: &'a [u8], name: &'a [u8]) -> Option<WordFault<'a>>
    ensures { option_map seen_fault result ≡ of_one kind.entry.now name.entry.now (capability_number (capability_meant name.entry.now)) }
{
    of_one(kind, name, capability_number(capability_meant(name)))
}

/// What is wrong with words that mean no question (`question_meant`), as `question_fault` returns it, with the word as it is written. It takes no
/// memory.
pub fn meant_fault<'a>(words: &[&'a [u8]]) -> Option<WordFault<'a>>
    ensures { option_map seen_fault result ≡ meant_fault (map (λ word. word.now) words.now) }
{
    if words.len() == 3 {
        return name_fault(words[0], words[2]);
    }
    if words.len() == 5 {
        return of_three(words[0], needs_fault(words[2]), words[3], words[4]);
    }
    question_fault(words)
}

/// The question that words mean (`question_meant`). It takes no memory.
///
/// # Errors
///
/// What is wrong with the words, where they mean none (`meant_fault`).
pub fn read<'a>(words: &[&'a [u8]]) -> Result<Question<'a>, WordFault<'a>>
    ensures ok { IfOk result (λ question. question_meant (map (λ word. word.now) words.now) ≡ Ok (seen_question question)) }
    ensures known { IfOk result (λ question. IsWellFormed question) }
    ensures wrong { IfErr result (λ fault. meant_fault (map (λ word. word.now) words.now) ≡ Some (seen_fault fault)) }
    ensures refused { IfErr result (λ fault. question_meant (map (λ word. word.now) words.now) ≡ Err (plain (refusal_of (seen_fault fault).wrong))) }
{
    how_wrong_words_are_refused();
    match (question_meant(words), meant_fault(words)) {
        (Ok(question), _) => Ok(question),
        (Err(_), Some(fault)) => Err(fault),
        (Err(_), None) => unreachable!(),
    }
}
