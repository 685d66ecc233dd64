//! How the answers to all letters of a file change.

ghost use Rattle.std.specs.Prelude.{◌≡◌};
ghost use Rattle.std.specs.List.{list_any};
ghost use Rattle.aa_explain_changes.specs.Changes.{answers_at, change_of, changes_of, same_change};
ghost use Rattle.aa_explain_changes.specs.FileChanges.{has_change};
ghost use Rattle.aa_explain_changes.specs.Rules.{change_told, changed_by, changes_by, covers_letter, takes_part, takes_so, with_changed};
ghost use Rattle.aa_explain_changes.specs.Sides.{seen_sides};
ghost use Rattle.aa_explain_changes.specs.code.Kinds.{ArePlacesOf, letter_list};

use crate::change::{Answers, Change, change_between};
use crate::sides::Sides;
use aa_decide_rules::covered_by_file;
use aa_explain_paths::{MatchedRules, matched_verdict};
use aa_profile_data::{FileRule, Perms};
use bitflags::Flags;

/// How the answer to each letter changes.
#[derive(Clone, Copy)]
pub struct LetterChanges {
    read: Change,
    write: Change,
    append: Change,
    link: Change,
    lock: Change,
    map: Change,
    exec: Change,
}

/// The places (indices) of the rules that match a path, for both sides.
#[derive(Clone, Copy)]
pub struct Places<'a> {
    /// The path.
    pub path: &'a [u8],
    /// The places of the old side, in rising order.
    pub old: &'a [usize],
    /// The places of the new side, in rising order.
    pub new: &'a [usize],
}

/// The answers of both sides to letters of a file, of the task's user or of another. It takes no memory, and no pattern is tried.
pub fn answers_at(sides: Sides<'_>, places: Places<'_>, owned: bool, letters: Perms) -> Answers
    requires { ArePlacesOf (seen_sides sides) places }
    ensures { result ≡ answers_at (seen_sides sides.entry) places.entry.path.now owned letters.0 }
{
    let before = MatchedRules {
        rules: sides.old.rules,
        places: places.old,
        path: places.path,
    };
    let now = MatchedRules {
        rules: sides.new.rules,
        places: places.new,
        path: places.path,
    };
    Answers {
        old: matched_verdict(sides.old.audit, before, letters, owned),
        new: matched_verdict(sides.new.audit, now, letters, owned),
    }
}

// How the answer to letters changes.
fn letter_change(sides: Sides<'_>, places: Places<'_>, owned: bool, letters: Perms) -> Change
    requires { ArePlacesOf (seen_sides sides) places }
    ensures { result ≡ change_of (seen_sides sides.entry) places.entry.path.now owned letters.0 }
{
    let answers = answers_at(sides, places, owned, letters);
    change_between(sides.quiet, answers.old, answers.new)
}

/// How the answers to all letters of a file change, of the task's user or of another. It takes no memory.
pub fn letter_changes(sides: Sides<'_>, places: Places<'_>, owned: bool) -> LetterChanges
    requires { ArePlacesOf (seen_sides sides) places }
    ensures { letter_list result ≡ changes_of (seen_sides sides.entry) places.entry.path.now owned }
{
    LetterChanges {
        read: letter_change(sides, places, owned, Perms::READ),
        write: letter_change(sides, places, owned, Perms::WRITE),
        append: letter_change(sides, places, owned, Perms::APPEND),
        link: letter_change(sides, places, owned, Perms::LINK),
        lock: letter_change(sides, places, owned, Perms::LOCK),
        map: letter_change(sides, places, owned, Perms::MAP),
        exec: letter_change(sides, places, owned, Perms::EXEC),
    }
}

// Whether two changes are the same.
fn same_change(one: Change, other: Change) -> bool
    ensures { result ≡ same_change one other }
{
    match (one, other) {
        (Change::Same, Change::Same) => true,
        (Change::Gained, Change::Gained) => true,
        (Change::Lost, Change::Lost) => true,
        (Change::Otherwise, Change::Otherwise) => true,
        _ => false,
    }
}

// Whether a rule covers a letter of a file; `matched` says whether its pattern matches the file's path.
fn covers_letter(rule: &FileRule, matched: bool, owned: bool, letter: Perms) -> bool
    ensures { result ≡ covers_letter rule.now matched owned letter.0 }
{
    matched && (!rule.owner || owned) && letter.intersects(covered_by_file(rule))
}

// Whether a rule covers a letter whose answer changes.
fn takes_part(rule: &FileRule, matched: bool, owned: bool, letter: Perms, change: Change) -> bool
    ensures { result ≡ takes_part rule.now matched owned (letter.0, change) }
{
    covers_letter(rule, matched, owned, letter) && change.is_change()
}

// Whether a rule covers a letter whose answer changes in this way.
fn takes_so(
    so: Change,
    rule: &FileRule,
    matched: bool,
    owned: bool,
    letter: Perms,
    change: Change,
) -> bool
    ensures { result ≡ takes_so so rule.now matched owned (letter.0, change) }
{
    covers_letter(rule, matched, owned, letter) && same_change(so, change)
}

// A set with one more letter, if a rule covers it and its answer changes in this way.
fn with_changed(
    so: Change,
    rule: &FileRule,
    matched: bool,
    owned: bool,
    set: Perms,
    letter: Perms,
    change: Change,
) -> Perms
    ensures { result.0 ≡ with_changed so rule.now matched owned set.0 (letter.0, change) }
{
    if takes_so(so, rule, matched, owned, letter, change) {
        set.union(letter)
    } else {
        set
    }
}

impl LetterChanges {
    /// Whether the answer to one of the letters changes in this way. It takes no memory.
    pub fn has(&self, change: Change) -> bool
        ensures { result ≡ has_change change (letter_list self.now) }
    {
        same_change(change, self.read)
            || same_change(change, self.write)
            || same_change(change, self.append)
            || same_change(change, self.link)
            || same_change(change, self.lock)
            || same_change(change, self.map)
            || same_change(change, self.exec)
    }

    /// Whether a rule covers one of the letters whose answer changes; `matched` says whether its pattern matches the file's path. It takes no
    /// memory.
    pub fn changes_by(&self, rule: &FileRule, matched: bool, owned: bool) -> bool
        ensures { result ≡ changes_by rule.now matched owned (letter_list self.now) }
    {
        takes_part(rule, matched, owned, Perms::READ, self.read)
            || takes_part(rule, matched, owned, Perms::WRITE, self.write)
            || takes_part(rule, matched, owned, Perms::APPEND, self.append)
            || takes_part(rule, matched, owned, Perms::LINK, self.link)
            || takes_part(rule, matched, owned, Perms::LOCK, self.lock)
            || takes_part(rule, matched, owned, Perms::MAP, self.map)
            || takes_part(rule, matched, owned, Perms::EXEC, self.exec)
    }

    // Whether a rule covers one of the letters whose answer changes in this way.
    fn takes_so(&self, so: Change, rule: &FileRule, matched: bool, owned: bool) -> bool
        ensures { result ≡ list_any (takes_so so rule.now matched owned) (letter_list self.now) }
    {
        takes_so(so, rule, matched, owned, Perms::READ, self.read)
            || takes_so(so, rule, matched, owned, Perms::WRITE, self.write)
            || takes_so(so, rule, matched, owned, Perms::APPEND, self.append)
            || takes_so(so, rule, matched, owned, Perms::LINK, self.link)
            || takes_so(so, rule, matched, owned, Perms::LOCK, self.lock)
            || takes_so(so, rule, matched, owned, Perms::MAP, self.map)
            || takes_so(so, rule, matched, owned, Perms::EXEC, self.exec)
    }

    /// The change that is reported of the letters that a rule covers: `Lost` where one of them isn't allowed any more, else `Gained` where one is
    /// allowed now, else `Otherwise`. It takes no memory.
    pub fn change_told(&self, rule: &FileRule, matched: bool, owned: bool) -> Change
        ensures { result ≡ change_told rule.now matched owned (letter_list self.now) }
    {
        if self.takes_so(Change::Lost, rule, matched, owned) {
            Change::Lost
        } else if self.takes_so(Change::Gained, rule, matched, owned) {
            Change::Gained
        } else {
            Change::Otherwise
        }
    }

    /// Those of the letters that a rule covers and whose answer changes in this way. It takes no memory.
    pub fn changed_by(&self, so: Change, rule: &FileRule, matched: bool, owned: bool) -> Perms
        ensures { result.0 ≡ changed_by so rule.now matched owned (letter_list self.now) }
    {
        let mut set = Perms::empty();
        set = with_changed(so, rule, matched, owned, set, Perms::READ, self.read);
        set = with_changed(so, rule, matched, owned, set, Perms::WRITE, self.write);
        set = with_changed(so, rule, matched, owned, set, Perms::APPEND, self.append);
        set = with_changed(so, rule, matched, owned, set, Perms::LINK, self.link);
        set = with_changed(so, rule, matched, owned, set, Perms::LOCK, self.lock);
        set = with_changed(so, rule, matched, owned, set, Perms::MAP, self.map);
        with_changed(so, rule, matched, owned, set, Perms::EXEC, self.exec)
    }
}
