//! How many parts the history of a manager has, its marks, and how much it remembers.

use crate::given::{files, managed};
use aa_set::{Manager, Question};
use aa_text::Files;
use std::alloc::Global;

// Three profiles are added, which can't be done twice, one is switched, and one is removed.
fn change(manager: &mut Manager, files: &Files) -> Option<u128> {
    manager.add(files, b"three").ok()?;
    manager.add(files, b"three").err()?;
    manager.enforce(b"a").ok()?;
    manager.remove(files, b"second").ok()?;
    Some(manager.kept())
}

// The two last changes are undone, and another takes their place.
fn change_anew(manager: &mut Manager, files: &Files) -> Option<(u128, u128)> {
    manager.undo(2).ok()?;
    let undone = manager.kept();
    manager.add(files, b"fourth").ok()?;
    Some((undone, manager.kept()))
}

fn kept_parts(manager: &mut Manager, files: &Files) -> Option<(u128, u128, u128)> {
    let made = change(manager, files)?;
    let (undone, anew) = change_anew(manager, files)?;
    Some((made, undone, anew))
}

fn keeps_parts(alloc: Global) -> Option<(u128, u128, u128)> {
    let three = b"profile a { /1 r, } profile b { /2 r, } profile c flags=(complain) { /3 r, }";
    let files = files(
        alloc,
        &[
            (b"three", three),
            (b"second", b"profile b { }"),
            (b"fourth", b"profile d { }"),
        ],
    )?;
    kept_parts(&mut Manager::new(alloc, false), &files)
}

// A file is added and marked, and one of its profiles is switched and marked.
fn mark_twice(manager: &mut Manager, files: &Files) -> Option<()> {
    manager.add(files, b"two").ok()?;
    manager.mark(b"first").ok()?;
    manager.enforce(b"a").ok()?;
    manager.mark(b"second").ok()
}

// Going to the marks leaves the parts.
fn go_to_marks(manager: &mut Manager) -> Option<u128> {
    manager.back(b"first").ok()?;
    manager.back(b"second").ok()?;
    Some(manager.kept())
}

// A change that is made at the first mark drops the changes after it, and the mark there.
fn drop_second(manager: &mut Manager, files: &Files) -> Option<bool> {
    manager.back(b"first").ok()?;
    manager.remove(files, b"two").ok()?;
    Some(manager.back(b"second").is_err() && manager.back(b"first").is_ok())
}

fn kept_marks(manager: &mut Manager, files: &Files) -> Option<(u128, u128, bool)> {
    mark_twice(manager, files)?;
    let made = go_to_marks(manager)?;
    let is_dropped = drop_second(manager, files)?;
    Some((made, manager.kept(), is_dropped))
}

fn keeps_marks(alloc: Global) -> Option<(u128, u128, bool)> {
    let files = files(alloc, &[(b"two", b"profile a { } profile b { }")])?;
    kept_marks(&mut Manager::new(alloc, false), &files)
}

// Whether more is remembered after a question of a profile.
fn remembers_more(manager: &mut Manager, who: &[u8]) -> bool {
    let before = manager.remembered_bytes();
    manager.remember(&Question::Exec {
        who,
        owned: false,
        path: b"/bin/x",
    });
    manager.remembered_bytes() > before
}

// Whether more is remembered after a question of each of some profiles, with names of one letter.
fn remembers_for_each(manager: &mut Manager, names: &[u8]) -> bool {
    for at in 0..names.len() {
        if !remembers_more(manager, &names[at..at + 1]) {
            return false;
        }
    }
    true
}

// What is remembered for one profile stays when another asks, and goes when the profiles change.
fn remembers(alloc: Global) -> Option<(bool, usize)> {
    let mut manager = managed(
        alloc,
        b"profile a { /bin/* r, } profile b { /bin/* r, } profile c { /bin/* r, } profile d { /bin/* r, } profile e { /bin/* r, } \
          profile f { /bin/* r, } profile g { /bin/* r, } profile h { /bin/* r, } profile i { /bin/* r, } profile j { /bin/* r, }",
    )?;
    let is_more = remembers_for_each(&mut manager, b"abcdefghij");
    manager.undo(1).ok()?;
    Some((is_more, manager.remembered_bytes()))
}

#[test]
fn a_manager_remembers_for_each(rt: HostRuntime) {
    assert!(rt; remembers(rt.alloc()) == Some((true, 0)));
}

#[test]
fn a_manager_keeps_marks(rt: HostRuntime) {
    assert!(rt; keeps_marks(rt.alloc()) == Some((3, 4, true)));
}

#[test]
fn a_manager_keeps_parts(rt: HostRuntime) {
    assert!(rt; keeps_parts(rt.alloc()) == Some((5, 5, 4)));
}
