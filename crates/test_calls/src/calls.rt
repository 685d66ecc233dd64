//! Calls of the libraries whose answers no row can state: the copies of a profile and of a rule, the slots that may attach to a path, the start of a
//! program by an asker whose slot is known, the answers to questions as values, and the reading of a file by each language.

ghost use Rattle.std.specs.Prelude.{◌≡◌, true, IfSome};
ghost use Rattle.aa_profile_data.specs.Conflicts.{profile_agrees};

use crate::given::{files, last_profile, managed};
use aa_decide::{Answer, ExecTo, Who, exec, find_named};
use aa_profile::{
    GrammarRefusal, Language, Profile, ProfileRefusal, Rule, read_file, read_file_in,
};
use aa_set::{Answered, Manager, Question};
use std::alloc::Global;

fn read(alloc: Global, text: &[u8]) -> Option<Profile>
    ensures { IfSome result (λ profile. profile_agrees profile ≡ true) }
{
    let files = files(alloc, &[(b"all", text)])?;
    last_profile(alloc, &files, b"all")
}

fn is_web(profile: &Profile) -> bool {
    let children = profile.children.as_slice();
    profile.name.as_slice() == b"web".as_slice()
        && profile.attachments.as_slice().len() == 1
        && profile.rules.as_slice().len() == 2
        && children.len() == 1
        && children[0].hat
}

fn copies(alloc: Global) -> Option<bool> {
    let profile = read(
        alloc,
        b"profile web /usr/sbin/httpd { /srv/** r, owner /srv/up/* w, hat up { } }",
    )?;
    let copy = profile.try_copy(alloc).ok()?;
    Some(is_web(&profile) && is_web(&copy))
}

#[test]
fn a_profile_is_copied(rt: HostRuntime) {
    assert!(rt; copies(rt.alloc()) == Some(true));
}

// Whether a rule is the owner's, on files below one folder.
fn is_upload(rule: &Rule) -> bool {
    match rule {
        Rule::File(rule) => rule.owner && rule.pattern.text() == b"/srv/up/*".as_slice(),
        _ => false,
    }
}

fn copies_rule(alloc: Global) -> Option<bool> {
    let profile = read(alloc, b"profile web { /srv/** r, owner /srv/up/* w, }")?;
    let rules = profile.rules.as_slice();
    if rules.len() != 2 {
        return None;
    }
    let copy = rules[1].try_copy(alloc).ok()?;
    Some(is_upload(&rules[1]) && is_upload(&copy))
}

#[test]
fn a_rule_is_copied(rt: HostRuntime) {
    assert!(rt; copies_rule(rt.alloc()) == Some(true));
}

// Asks under which profile a program starts, again and again, so that its path is remembered.
fn remember(manager: &mut Manager, path: &[u8]) {
    let question = Question::Exec {
        who: b"unconfined",
        owned: false,
        path,
    };
    for _ in 0..4 {
        manager.remember(&question);
    }
}

// Whether these slots may attach to a path.
fn are_attaching(alloc: Global, manager: &Manager, path: &[u8], slots: &[usize]) -> bool {
    let found = manager.policy_set().slots().attaching(alloc, path);
    match found {
        Ok(found) => found.as_slice() == slots,
        Err(_) => false,
    }
}

// Every slot may attach to a path, until it is kept beside them which do.
fn attach(alloc: Global) -> Option<bool> {
    let path = b"/usr/bin/y".as_slice();
    let mut manager = managed(
        alloc,
        b"profile g /usr/** { } profile h /usr/bin/{x,y} { } profile e /usr/bin/x { }",
    )?;
    let all = are_attaching(alloc, &manager, path, &[0, 1, 2]);
    remember(&mut manager, path);
    Some(all && are_attaching(alloc, &manager, path, &[0, 1]))
}

#[test]
fn slots_attach_what_is_remembered(rt: HostRuntime) {
    assert!(rt; attach(rt.alloc()) == Some(true));
}

// Whether the profile `web` starts PHP under its own child.
fn starts_child(alloc: Global, manager: &Manager) -> Option<bool> {
    let slots = &manager.policy_set().slots();
    let (slot, _) = find_named(slots, b"web")?;
    let who = Who::Entry { slot, child: None };
    let found = exec(alloc, slots, who, false, b"/usr/bin/php").ok()?;
    let to = ExecTo::Profile {
        slot,
        child: Some(0),
    };
    Some(found.verdict.answer == Answer::Allow && found.to == to && found.scrub)
}

fn starts(alloc: Global) -> Option<bool> {
    let manager = managed(
        alloc,
        b"profile web { /usr/bin/php Px -> web//php, profile php { } }",
    )?;
    starts_child(alloc, &manager)
}

#[test]
fn a_program_is_started_by_its_slot(rt: HostRuntime) {
    assert!(rt; starts(rt.alloc()) == Some(true));
}

// Whether an answer is this one, with this text, and logged or not.
fn is_answer(found: &Answered, answer: Option<Answer>, text: &[u8], is_logged: bool) -> bool {
    found.answer == answer
        && found.text.as_slice() == text
        && found.logged.as_slice().is_empty() != is_logged
}

// Whether the words after `ask` have this answer, without what is remembered and with it.
fn is_answered(
    manager: &mut Manager,
    words: &[&[u8]],
    answer: Option<Answer>,
    text: &[u8],
    is_logged: bool,
) -> Option<bool> {
    let Ok(question) = Question::read(words) else {
        return None;
    };
    let first = manager.answered(&question).ok()?;
    let second = manager.answer(&question).ok()?;
    let third = manager.answered(&question).ok()?;
    Some(
        is_answer(&first, answer, text, is_logged)
            && is_answer(&second, answer, text, is_logged)
            && is_answer(&third, answer, text, is_logged),
    )
}

fn answers(alloc: Global) -> Option<bool> {
    let manager = &mut managed(alloc, b"profile p { /a r, /b Ux, }")?;
    let read = is_answered(
        manager,
        &[b"file", b"p", b"r", b"other", b"/a"],
        Some(Answer::Allow),
        b"allow",
        false,
    )?;
    let written = is_answered(
        manager,
        &[b"file", b"p", b"w", b"other", b"/a"],
        Some(Answer::Refuse),
        b"refuse",
        true,
    )?;
    let started = is_answered(
        manager,
        &[b"exec", b"p", b"other", b"/b"],
        Some(Answer::Allow),
        b"allow unconfined scrub",
        false,
    )?;
    let free = is_answered(
        manager,
        &[b"cap", b"unconfined", b"chown"],
        None,
        b"unconfined",
        false,
    )?;
    Some(read && written && started && free)
}

#[test]
fn a_question_is_answered_as_values(rt: HostRuntime) {
    assert!(rt; answers(rt.alloc()) == Some(true));
}

// The flag of a mode that language 3 hasn't.
const WIDER: &[u8] = b"profile p flags=(unconfined) { }";

// Whether language 3 refuses what language 4 reads.
fn goes_by_language(alloc: Global) -> Option<bool> {
    let files = files(alloc, &[(b"p", WIDER)])?;
    let narrow = read_file(alloc, &files, b"p");
    let wide = read_file_in(alloc, Language::Four, &files, b"p");
    Some(narrow.err()?.refusal == ProfileRefusal::from(GrammarRefusal::BadFlag) && wide.is_ok())
}

#[test]
fn a_file_is_read_by_its_language(rt: HostRuntime) {
    assert!(rt; goes_by_language(rt.alloc()) == Some(true));
}
