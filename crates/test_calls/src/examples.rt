//! The examples of the families' pages, and what each gives.

mod asking;
mod attaching;
mod bytes;
mod columns;
mod decide;
mod explain;
mod glob;
mod history;
mod logging;
mod missing;
mod names;
mod near;
mod overlaps;
mod places;
mod profile;
mod program;
mod set;
mod single;
mod starting;
mod switching;
mod text;
mod trying;
mod words;

use crate::given::{files, first_wrong, managed};
use aa_decide::{IndexedSlots, find_named};
use aa_set::Manager;
use std::alloc::Global;

// A file that the examples hand in.
const WEB: &[u8] = b"profile web { /srv/www/** rw, deny /srv/www/private w, }";

// A file of profiles that programs are attached to.
const ATTACHED: &[u8] =
    b"profile g /usr/** { } profile h /usr/bin/{x,y} { } profile e /usr/bin/x { }";

// A file of a profile that starts programs.
const STARTING: &[u8] =
    b"profile web { /usr/bin/php Px -> web//php, /usr/bin/mail pux, profile php { } }";

fn names_are_written(alloc: Global) -> bool {
    match bytes::written_names(alloc) {
        Ok(line) => line.as_slice() == b"\"/srv/www\" 2F7372762F612062".as_slice(),
        Err(_) => false,
    }
}

fn patterns_match(alloc: Global) -> bool {
    match glob::matching_places(alloc, b"/srv/www/index.html") {
        Ok(places) => places.as_slice() == [0, 2].as_slice(),
        Err(_) => false,
    }
}

// Whether a pattern matches a path, and is exact, as it should.
fn is_alone(alloc: Global, pattern: &[u8], path: &[u8], should: (bool, bool)) -> bool {
    match single::matches_alone(alloc, pattern, path) {
        Ok(found) => found == should,
        Err(_) => false,
    }
}

// A star that is a whole segment stands for at least one byte, and a byte after a backslash for itself.
fn patterns_match_alone(alloc: Global) -> bool {
    is_alone(alloc, b"/tmp/*", b"/tmp/x", (true, false))
        && is_alone(alloc, b"/tmp/*", b"/tmp/", (false, false))
        && is_alone(alloc, b"/srv/a\\*b", b"/srv/a*b", (true, true))
}

// Whether two patterns overlap, or not, as they should.
fn is_shared(alloc: Global, one: &[u8], other: &[u8], should: bool) -> bool {
    match overlaps::share_a_path(alloc, one, other) {
        Ok(found) => found == should,
        Err(_) => false,
    }
}

// The first two patterns both match `/bin/b`.
fn patterns_overlap(alloc: Global) -> bool {
    is_shared(alloc, b"/bin/{a,b}", b"/bin/[b-c]", true)
        && is_shared(alloc, b"/srv/cgi/*.cgi", b"/srv/cgi/*.php", false)
}

fn is_expanded(alloc: Global) -> bool {
    match text::expansions(alloc) {
        Ok(texts) => match texts.as_slice() {
            [one, other] => {
                one.as_slice() == b"/srv/www/*.html".as_slice()
                    && other.as_slice() == b"/srv/ftp/*.html".as_slice()
            }
            _ => false,
        },
        Err(_) => false,
    }
}

fn is_cut(alloc: Global) -> bool {
    match words::word_lines(alloc, b"profile web { /a r, # b\n \"c d\" w, }") {
        Ok(lines) => lines.as_slice() == b"profile\nweb\n/a\nr\nw\n".as_slice(),
        Err(_) => false,
    }
}

fn is_refused(alloc: Global) -> bool {
    match profile::refusal(alloc, b"profile web { @{WBE}/** r, }") {
        Ok(Some(error)) => match error.to_string(alloc) {
            Ok(text) => text.as_str() == "26 Undefined file 0 at 14",
            Err(_) => false,
        },
        _ => false,
    }
}

// Whether a profile has this name, and so many rules.
fn is_counted(count: &(Vec<u8>, usize), name: &[u8], rules: usize) -> bool {
    count.0.as_slice() == name && count.1 == rules
}

// A rule of two expansions counts twice, and one that is included counts.
fn rules_are_counted(alloc: Global) -> bool {
    let Some(files) = files(
        alloc,
        &[
            (b"vars", b"@{WEB}=/srv/www /srv/ftp"),
            (b"base", b"/etc/hosts r,"),
            (
                b"web",
                b"include <vars> profile web { include <base> @{WEB}/** r, } profile cgi { }",
            ),
        ],
    ) else {
        return false;
    };
    match names::rule_counts(alloc, &files, b"web") {
        Ok(counts) => match counts.as_slice() {
            [web, cgi] => is_counted(web, b"web", 3) && is_counted(cgi, b"cgi", 0),
            _ => false,
        },
        Err(_) => false,
    }
}

fn is_not_let_write(alloc: Global) -> bool {
    let Some(manager) = managed(alloc, WEB) else {
        return false;
    };
    let lets = decide::lets_write(alloc, &manager.policy_set().slots(), b"/srv/www/private");
    match lets {
        Ok(answer) => answer == Some(false),
        Err(_) => false,
    }
}

// Whether a path is attached to the profile of this name, or to none, as it should.
fn is_attached(
    alloc: Global,
    slots: &IndexedSlots<'_>,
    path: &[u8],
    should: Option<&[u8]>,
) -> bool {
    match (attaching::attached_name(alloc, slots, path), should) {
        (Ok(Some(name)), Some(should)) => name == should,
        (Ok(None), None) => true,
        _ => false,
    }
}

// An exact pattern ranks highest, and then the one with the longest literal beginning.
fn programs_are_attached(alloc: Global) -> bool {
    let Some(manager) = managed(alloc, ATTACHED) else {
        return false;
    };
    let slots = manager.policy_set().slots();
    is_attached(alloc, &slots, b"/usr/bin/x", Some(b"e"))
        && is_attached(alloc, &slots, b"/usr/bin/y", Some(b"h"))
        && is_attached(alloc, &slots, b"/opt/z", None)
}

// Whether a program runs unconfined, or not, as it should.
fn is_started(alloc: Global, slots: &IndexedSlots<'_>, path: &[u8], should: bool) -> bool {
    match starting::runs_unconfined(alloc, slots, path) {
        Ok(found) => found == Some(should),
        Err(_) => false,
    }
}

// The word `pux` leads to no profile where none is attached.
fn programs_are_started(alloc: Global) -> bool {
    let Some(manager) = managed(alloc, STARTING) else {
        return false;
    };
    let slots = manager.policy_set().slots();
    is_started(alloc, &slots, b"/usr/bin/mail", true)
        && is_started(alloc, &slots, b"/usr/bin/php", false)
}

// Whether this is logged where a file is written.
fn is_logged(alloc: Global, slots: &IndexedSlots<'_>, path: &[u8], should: &[u8]) -> bool {
    match logging::written_line(alloc, slots, path) {
        Ok(line) => line.as_slice() == should,
        Err(_) => false,
    }
}

// What no rule lets is logged, and what a deny rule denies that isn't audited isn't.
fn answers_are_logged(alloc: Global) -> bool {
    let Some(manager) = managed(alloc, WEB) else {
        return false;
    };
    let slots = manager.policy_set().slots();
    let refused =
        b"apparmor=\"DENIED\" operation=\"file\" profile=\"web\" name=\"/etc/hosts\" requested_mask=\"w\" denied_mask=\"w\"\n";
    is_logged(alloc, &slots, b"/etc/hosts", refused)
        && is_logged(alloc, &slots, b"/srv/www/private", b"")
}

fn rule_denies(alloc: Global) -> bool {
    let Some(manager) = managed(alloc, WEB) else {
        return false;
    };
    let slots = manager.policy_set().slots();
    let Some((_, web)) = find_named(&slots, b"web") else {
        return false;
    };
    match explain::denying_places(alloc, web.ready().section(None).rules, b"/srv/www/private") {
        Ok(places) => places.as_slice() == [1].as_slice(),
        Err(_) => false,
    }
}

// The pattern of a missing rule has a backslash before a bracket that opens a class, so that it stands for itself.
fn rule_is_missing(alloc: Global) -> bool {
    let Some(manager) = managed(alloc, WEB) else {
        return false;
    };
    let slots = manager.policy_set().slots();
    let Some((_, web)) = find_named(&slots, b"web") else {
        return false;
    };
    match missing::missing_text(alloc, web.ready().section(None).rules, b"/srv/[x]") {
        Ok(Some(text)) => text.as_slice() == b"/srv/\\[x] w".as_slice(),
        _ => false,
    }
}

// A deny rule isn't near.
fn rule_is_near(alloc: Global) -> bool {
    let Some(manager) = managed(alloc, WEB) else {
        return false;
    };
    let slots = manager.policy_set().slots();
    let Some((_, web)) = find_named(&slots, b"web") else {
        return false;
    };
    match near::near_places(alloc, web.ready().section(None).rules, b"/srv/www/private") {
        Ok(places) => places.as_slice() == [0].as_slice(),
        Err(_) => false,
    }
}

fn is_answered(alloc: Global) -> bool {
    match set::replies(alloc, WEB, b"add web\nlist\nundo\n") {
        Ok(replies) => { replies.as_slice() == b"ok\nprofiles 1\n\"web\" enforce\nok\n".as_slice() }
        Err(_) => false,
    }
}

fn change_is_taken_back(alloc: Global) -> bool {
    let Some(files) = files(alloc, &[(b"web", WEB)]) else {
        return false;
    };
    match trying::lists(alloc, &files) {
        Ok((tried, taken_back)) => {
            tried.as_slice() == b"profiles 1\n\"web\" complain\n".as_slice()
                && taken_back.as_slice() == b"profiles 1\n\"web\" enforce\n".as_slice()
        }
        Err(_) => false,
    }
}

fn profile_is_disabled(alloc: Global) -> bool {
    let Some(mut manager) = managed(alloc, b"profile web { /srv/www/** rw, }") else {
        return false;
    };
    match switching::shown(&mut manager) {
        Ok((disabled, in_force)) => {
            disabled.as_slice()
                == b"profile \"web\" disabled\n  file \"/srv/www/**\" rw\n".as_slice()
                && in_force.as_slice()
                    == b"profile \"web\" enforce\n  file \"/srv/www/**\" rw\n".as_slice()
        }
        Err(_) => false,
    }
}

// Whether this is the reply to whether a file may be written.
fn is_reply(manager: &Manager, path: &[u8], should: &[u8]) -> bool {
    match asking::write_reply(manager, path) {
        Ok(reply) => reply.as_slice() == should,
        Err(_) => false,
    }
}

fn questions_are_answered(alloc: Global) -> bool {
    let Some(manager) = managed(alloc, WEB) else {
        return false;
    };
    let refused =
        b"refuse\napparmor=\"DENIED\" operation=\"file\" profile=\"web\" name=\"/etc/hosts\" requested_mask=\"w\" denied_mask=\"w\"\n";
    is_reply(&manager, b"/srv/www/index.html", b"allow\n")
        && is_reply(&manager, b"/srv/www/private", b"deny\n")
        && is_reply(&manager, b"/etc/hosts", refused)
}

fn folder_is_planned(alloc: Global) -> bool {
    match program::folder(alloc, &["aaset", "-b", "/srv/policy", "web"]) {
        Some(folder) => folder.as_str() == "/srv/policy",
        None => false,
    }
}

fn place_is_marked(alloc: Global) -> bool {
    match places::marked(alloc, b"profile p { /a q, }", 15) {
        Ok(lines) => { lines.as_slice() == b"profile p { /a q, }\n               ^".as_slice() }
        Err(_) => false,
    }
}

// The access `q` is refused in the file that is included: 12 bytes stand before it in its second line.
fn place_is_counted(alloc: Global) -> bool {
    let Some(files) = files(
        alloc,
        &[
            (b"web", b"profile web { include <site> }"),
            (b"site", b"/srv/www/** r,\n/srv/ftp/** q,\n"),
        ],
    ) else {
        return false;
    };
    match columns::refused_at(alloc, &files, b"web") {
        Some((file, line, column)) => file == b"site".as_slice() && line == 2 && column == 13,
        None => false,
    }
}

// The families' examples, and whether each gives what it should.
fn rows(alloc: Global) -> [(&'static str, bool); 24] {
    [
        ("bytes", names_are_written(alloc)),
        ("glob", patterns_match(alloc)),
        ("single", patterns_match_alone(alloc)),
        ("overlaps", patterns_overlap(alloc)),
        ("text", is_expanded(alloc)),
        ("words", is_cut(alloc)),
        ("profile", is_refused(alloc)),
        ("names", rules_are_counted(alloc)),
        ("decide", is_not_let_write(alloc)),
        ("logging", answers_are_logged(alloc)),
        ("attaching", programs_are_attached(alloc)),
        ("starting", programs_are_started(alloc)),
        ("explain", rule_denies(alloc)),
        ("missing", rule_is_missing(alloc)),
        ("near", rule_is_near(alloc)),
        (
            "history, undo",
            history::number_after_undo(alloc) == Some(2),
        ),
        ("history, back", history::number_at_mark(alloc) == Some(2)),
        ("set", is_answered(alloc)),
        ("trying", change_is_taken_back(alloc)),
        ("switching", profile_is_disabled(alloc)),
        ("asking", questions_are_answered(alloc)),
        ("program", folder_is_planned(alloc)),
        ("places", place_is_marked(alloc)),
        ("columns", place_is_counted(alloc)),
    ]
}

#[test]
fn the_pages_examples_give_what_they_should(rt: HostRuntime) {
    assert_eq!(rt; first_wrong(&rows(rt.alloc())), None);
}
