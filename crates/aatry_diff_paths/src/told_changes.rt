//! What is told of rules that one side alone has, and of what they change.

ghost use Rattle.std.specs.Prelude.{◌≡◌, ◌++◌, OnOk, map, option_map, slice_get};
ghost use Rattle.aa_explain_changes.specs.FileChanges.{seen_rule_change};
ghost use Rattle.aa_explain_changes.specs.Rules.{seen_change};
ghost use Rattle.aatry_diff_paths.specs.Telling.{change_told, path_by, path_told, rule_line, rule_text, rules_text};
ghost use Rattle.aatry_policy.specs.FolderParts.{seen_folder};
ghost use Rattle.aatry_policy.specs.SeenProfiles.{seen_part};

use crate::answers::{answer_text, tells_logs};
use aa_explain_changes::{FileChange, RuleChange};
use aa_explain_diff::Feature;
use aatry_claims::{owner_note, owner_word};
use aatry_report::{Field, Teller, tell};
use aatry_shared::{SidePart, push_lines};
use aatry_why_lines::Finder;
use std::alloc::AllocError;

// Appends a path on which answers change to a text, by its letters, whose file it is, and the answers.
#[tactic(auto, unfolding(crate::specs::Telling::path_by))]
fn push_path_by<'x>(
    teller: Teller,
    name: &'x [u8],
    letters: &'x [u8],
    path: &'x [u8],
    note: &'x str,
    owned: &'x str,
    before: &'x [u8],
    after: &'x [u8],
    out: &mut Vec<u8>,
) -> Result<(), AllocError>
    ensures { OnOk result (out.new.items
        ≡ out.old.items ++ path_by teller.form name.now letters.now path.now note.now owned.now before.now after.now) }
{
    tell(
        teller,
        "path",
        &[
            Field::Member("name", name),
            Field::Words("      "),
            Field::Plain("letters", letters),
            Field::Words(" of "),
            Field::Text("path", path),
            Field::Words(note),
            Field::MemberWord("owned", owned),
            Field::Words(": "),
            Field::Plain("before", before),
            Field::Words(" -> "),
            Field::Plain("after", after),
        ],
        out,
    )
}

// Appends a path on which answers change to a text.
fn push_path(
    teller: Teller,
    name: &[u8],
    change: &FileChange,
    out: &mut Vec<u8>,
) -> Result<(), AllocError>
    ensures { OnOk result (out.new.items ≡ out.old.items ++ path_told teller.form name.now (seen_change change.now)) }
{
    let logs = tells_logs(change.answers);
    let before = answer_text(teller.alloc, logs, change.answers.old)?;
    let after = answer_text(teller.alloc, logs, change.answers.new)?;
    let mut letters = Vec::new(teller.alloc);
    change.letters.push_letters(&mut letters)?;
    let note = owner_note(change.owned);
    let owned = owner_word(change.owned);
    push_path_by(
        teller,
        name,
        &letters,
        &change.path,
        note,
        owned,
        &before,
        &after,
        out,
    )
}

// Appends what is told below a rule: a path on which answers change, or that it changes nothing.
fn push_told(
    teller: Teller,
    name: &[u8],
    change: &Option<FileChange>,
    out: &mut Vec<u8>,
) -> Result<(), AllocError>
    ensures { OnOk result (out.new.items ≡ out.old.items ++ change_told teller.form name.now (option_map seen_change change.now)) }
{
    match change {
        None => tell(
            teller,
            "nothing",
            &[
                Field::Member("name", name),
                Field::Words("      changes nothing"),
            ],
            out,
        ),
        Some(change) => push_path(teller, name, change, out),
    }
}

// Appends the rule of a number, where there is one.
fn push_rule(
    finder: &mut Finder<'_>,
    teller: Teller,
    own: &SidePart<'_>,
    number: usize,
    out: &mut Vec<u8>,
) -> Result<(), AllocError>
    requires { finder.old ≡ (seen_folder own.now.folder.now).below }
    ensures told { OnOk result (out.new.items ≡ out.old.items ++ rule_line teller.form (seen_folder own.now.folder.now) (seen_part own.now.part.now)
        own.now.side number (slice_get (seen_part own.now.part.now).section.rules number)) }
    ensures same { finder.new ≡ finder.old }
{
    let part = own.part;
    let rules = part.section.rules;
    match rules.get(number) {
        None => Ok(()),
        Some(rule) => push_lines(
            finder,
            teller,
            own,
            "  ",
            &[Feature::Rule(rule, number)],
            out,
        ),
    }
}

// Appends what is told of a rule that one side alone has.
fn push_change(
    finder: &mut Finder<'_>,
    teller: Teller,
    own: &SidePart<'_>,
    change: &RuleChange<'_>,
    out: &mut Vec<u8>,
) -> Result<(), AllocError>
    requires { finder.old ≡ (seen_folder own.now.folder.now).below }
    ensures told { OnOk result (out.new.items ≡ out.old.items ++ rule_text teller.form (seen_folder own.now.folder.now) (seen_part own.now.part.now)
        own.now.side (seen_rule_change change.now)) }
    ensures same { finder.new ≡ finder.old }
{
    let part = own.part;
    push_rule(finder, teller, own, change.lone.number, out)?;
    push_told(teller, part.name.as_slice(), &change.change, out)
}

/// Appends what is told of rules to a text that one side of a part of both folders has alone: each as `diff` tells it, and below it a path on which answers
/// change that it takes part in, with the answers before and after, or that it changes nothing.
///
/// # Errors
///
/// Where memory runs out. A beginning may have been appended then.
pub fn push_rules(
    finder: &mut Finder<'_>,
    teller: Teller,
    own: &SidePart<'_>,
    changes: &[RuleChange<'_>],
    out: &mut Vec<u8>,
) -> Result<(), AllocError>
    requires { finder.old ≡ (seen_folder own.now.folder.now).below }
    ensures told { OnOk result (out.new.items ≡ out.old.items ++ rules_text teller.form (seen_folder own.now.folder.now) (seen_part own.now.part.now)
        own.now.side (map seen_rule_change changes.now)) }
    ensures same { finder.new ≡ finder.old }
{
    let mut rest = changes;
    while let [change, behind @ ..] = rest {
        push_change(finder, teller, own, change, out)?;
        rest = behind;
    }
    Ok(())
}
