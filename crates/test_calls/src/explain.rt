//! Why requests are answered as they are: the calls whose findings no row states.

use crate::given::{first_wrong, managed};
use aa_decide::{Entry, ExecTo, IndexedSlots, Request, find_loaded, find_named};
use aa_explain::{
    AskedRules, attached_child, child_candidates, lead_of, leading_rules, missing_rule, near_rules,
    profile_candidates, ranks_of, told_rules,
};
use aa_profile::{Perms, Rule};
use std::alloc::Global;

// Two profiles that fit one path, and a child.
const WEB: &[u8] =
    b"profile web /usr/bin/web* { /srv/** r, deny /srv/x w, /usr/bin/* px, /usr/bin/vi ux, profile php /usr/bin/php { } } profile other /usr/bin/web { }";

fn write(path: &[u8]) -> Request<'_> {
    Request::File {
        needs: Perms::WRITE,
        owned: false,
        path,
    }
}

// A rule that allows reading the path applies to a write, and one denies it.
fn are_told(alloc: Global, rules: AskedRules<'_>) -> bool {
    match told_rules(alloc, rules, &write(b"/srv/x")) {
        Ok(found) => match found.as_slice() {
            [read, denied] => read.place == 0 && !read.denies && denied.place == 1 && denied.denies,
            _ => false,
        },
        Err(_) => false,
    }
}

fn are_near(alloc: Global, rules: AskedRules<'_>) -> bool {
    match near_rules(alloc, rules, &write(b"/srv/y")) {
        Ok(places) => places.as_slice() == [0].as_slice(),
        Err(_) => false,
    }
}

fn is_missing(alloc: Global, rules: AskedRules<'_>) -> bool {
    match missing_rule(alloc, rules, &write(b"/srv/y")) {
        Ok(Some(Rule::File(rule))) => {
            rule.access == Perms::WRITE && rule.pattern.text() == b"/srv/y".as_slice()
        }
        _ => false,
    }
}

// Whether this rule alone leads the program of a path.
fn leads(alloc: Global, rules: AskedRules<'_>, path: &[u8], place: usize) -> bool {
    match leading_rules(alloc, rules, false, path) {
        Ok(places) => places.as_slice() == [place].as_slice(),
        Err(_) => false,
    }
}

// A pattern ranks by its beginning, and an exact one above all others.
fn are_ranked(alloc: Global, slots: &[Option<Entry>]) -> bool {
    let Ok(candidates) = profile_candidates(alloc, slots) else {
        return false;
    };
    match ranks_of(alloc, b"/usr/bin/web", &candidates) {
        Ok(ranks) => ranks.as_slice() == [13, 4_098].as_slice(),
        Err(_) => false,
    }
}

fn has_child(alloc: Global, entry: &Entry) -> bool {
    match child_candidates(alloc, entry) {
        Ok(children) => children.len() == 1,
        Err(_) => false,
    }
}

fn is_attached(alloc: Global, entry: &Entry) -> bool {
    match attached_child(alloc, entry.ready(), b"/usr/bin/php") {
        Ok(child) => child == Some(0),
        Err(_) => false,
    }
}

// The program of an exact pattern is led to no profile.
fn has_lead(alloc: Global, slots: &IndexedSlots<'_>) -> bool {
    let Some(web) = find_loaded(slots, b"web") else {
        return false;
    };
    match lead_of(alloc, slots, web, false, b"/usr/bin/vi") {
        Ok(Some(lead)) => lead.to == Some(ExecTo::Unconfined) && lead.fallback.is_none(),
        _ => false,
    }
}

// Rules concern a request whose patterns match its path, whoever owns the file.
fn are_concerned(alloc: Global, rules: AskedRules<'_>) -> bool {
    match rules.concerned(alloc, &write(b"/srv/x")) {
        Ok(places) => places.as_slice() == [0, 1].as_slice(),
        Err(_) => false,
    }
}

// What is found of a request, and whether that is what it should be.
fn rows(alloc: Global, rules: AskedRules<'_>) -> [(&'static str, bool); 6] {
    [
        ("concerned", are_concerned(alloc, rules)),
        ("told_rules", are_told(alloc, rules)),
        ("near_rules", are_near(alloc, rules)),
        ("missing_rule", is_missing(alloc, rules)),
        ("leading_rules", leads(alloc, rules, b"/usr/bin/ls", 2)),
        (
            "leading_rules, exact",
            leads(alloc, rules, b"/usr/bin/vi", 3),
        ),
    ]
}

// What is wrong of the rules of a profile, each of which is tried by itself.
fn wrong_listed(alloc: Global, entry: &Entry) -> Option<&'static str> {
    let rules = entry.ready().section(None).rules;
    let audit = false;
    first_wrong(&rows(alloc, AskedRules::Listed { audit, rules }))
}

// What is wrong of the same rules, as the automaton of their profile finds them.
fn wrong_loaded(alloc: Global, entry: &Entry) -> Option<&'static str> {
    let section = entry.ready().section(None);
    first_wrong(&rows(alloc, AskedRules::Loaded(section)))
}

fn wrong(alloc: Global) -> Option<&'static str> {
    let Some(manager) = managed(alloc, WEB) else {
        return Some("add");
    };
    let slots = manager.policy_set().slots();
    let Some((_, web)) = find_named(&slots, b"web") else {
        return Some("find_named");
    };
    let attachments = [
        ("ranks_of", are_ranked(alloc, slots.as_slice())),
        ("child_candidates", has_child(alloc, web)),
        ("attached_child", is_attached(alloc, web)),
        ("lead_of", has_lead(alloc, &slots)),
    ];
    match (wrong_listed(alloc, web), wrong_loaded(alloc, web)) {
        (None, None) => first_wrong(&attachments),
        (None, found) => found,
        (found, _) => found,
    }
}

#[test]
fn answers_are_explained(rt: HostRuntime) {
    assert_eq!(rt; wrong(rt.alloc()), None);
}
