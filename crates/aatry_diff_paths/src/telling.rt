//! What is told of profiles, children and hats of which something is answered otherwise.

ghost use Rattle.std.specs.Prelude.{◌≡◌, ◌++◌, OnOk, Some, map};
ghost use Rattle.aatry_path_changes.specs.Finding.{seen_both, seen_found};
ghost use Rattle.aatry_diff_paths.specs.Telling.{all_text, below_text, both_by, both_text, files_text, found_text, kind_word, many_word};
ghost use Rattle.aatry_policy.specs.FolderParts.{seen_folder};
ghost use Rattle.aatry_policy.specs.SeenProfiles.{seen_part};
ghost use Rattle.aatry_shared.specs.Sides.{FindIn};
ghost use Rattle.aatry_uncertain.specs.SeenHeads.{all_left_out};

use crate::told_changes::push_rules;
use crate::told_others::{push_mode, push_others};
use crate::told_starts::push_starts;
use aa_explain_changes::FileChanges;
use aatry_changes::{Compared, push_gone, push_headed};
use aatry_claims::push_absent;
use aatry_path_changes::{BothFound, Finding, Found, Kind, is_same, kind_of_both};
use aatry_report::{Form, Teller};
use aatry_shared::{Finders, PartPair, Side, SidePart, finders_in};
use std::alloc::AllocError;

/// How findings are told.
#[derive(Clone, Copy)]
pub struct How {
    /// Whether the words alone are to be told, without what is answered otherwise.
    pub stat: bool,
    /// Whether answers are the same that differ in how they are logged alone.
    pub quiet: bool,
}

// Appends what changes of files to a text: the rules that the old part has alone, and then those of the new one.
fn push_both_rules(
    finders: &mut Finders<'_>,
    teller: Teller,
    pair: &PartPair<'_>,
    files: &FileChanges<'_>,
    out: &mut Vec<u8>,
) -> Result<(), AllocError>
    requires { FindIn (seen_folder pair.now.old.now) (seen_folder pair.now.new.now) finders.old }
    ensures told { OnOk result (out.new.items ≡ out.old.items ++ files_text teller.form (seen_folder pair.now.old.now) (seen_folder pair.now.new.now)
        (seen_part pair.now.part.now) (seen_part pair.now.other.now) (Some files.now)) }
    ensures same { finders.new ≡ finders.old }
{
    let old = SidePart {
        folder: pair.old,
        part: pair.part,
        side: Side::Old,
    };
    let new = SidePart {
        folder: pair.new,
        part: pair.other,
        side: Side::New,
    };
    push_rules(&mut finders.of_old, teller, &old, &files.old, out)?;
    push_rules(&mut finders.of_new, teller, &new, &files.new, out)
}

// The same, where paths aren't too many.
fn push_files(
    finders: &mut Finders<'_>,
    teller: Teller,
    pair: &PartPair<'_>,
    files: &Option<FileChanges<'_>>,
    out: &mut Vec<u8>,
) -> Result<(), AllocError>
    requires { FindIn (seen_folder pair.now.old.now) (seen_folder pair.now.new.now) finders.old }
    ensures told { OnOk result (out.new.items ≡ out.old.items ++ files_text teller.form (seen_folder pair.now.old.now) (seen_folder pair.now.new.now)
        (seen_part pair.now.part.now) (seen_part pair.now.other.now) files.now) }
    ensures same { finders.new ≡ finders.old }
{
    match files {
        None => Ok(()),
        Some(files) => push_both_rules(finders, teller, pair, files, out),
    }
}

// Appends what is answered otherwise of a part of both folders to a text.
#[tactic(auto, unfolding(crate::specs::Telling::below_text))]
fn push_below(
    finders: &mut Finders<'_>,
    teller: Teller,
    compared: &Compared<'_>,
    both: &BothFound<'_>,
    out: &mut Vec<u8>,
) -> Result<(), AllocError>
    requires { FindIn (seen_folder compared.now.old.now) (seen_folder compared.now.new.now) finders.old }
    ensures told { OnOk result (out.new.items ≡ out.old.items ++ below_text teller.form (seen_folder compared.now.old.now) (seen_folder compared.now.new.now) (seen_both both.now)) }
    ensures same { finders.new ≡ finders.old }
{
    let pair = PartPair {
        old: compared.old,
        new: compared.new,
        part: both.part,
        other: both.other,
    };
    let name = both.part.name.as_slice();
    push_mode(
        teller,
        name,
        both.part.section.mode,
        both.other.section.mode,
        out,
    )?;
    push_files(finders, teller, &pair, &both.files, out)?;
    push_others(teller, name, &both.others, out)?;
    push_starts(teller, name, both.starters, &both.starts, out)
}

// The word for paths that are too many; in records it is a kind.
fn many_word(form: Form) -> &'static str
    ensures { result.now ≡ many_word form }
{
    match form {
        Form::Lines => "too many",
        Form::Records => "too_many",
    }
}

// The word that is told.
fn kind_word(form: Form, kind: Kind) -> &'static str
    ensures { result.now ≡ kind_word form kind }
{
    match kind {
        Kind::Same => "same",
        Kind::Wider => "wider",
        Kind::Narrower => "narrower",
        Kind::Both => "both",
        Kind::Otherwise => "otherwise",
        Kind::Gone => "gone",
        Kind::New => "new",
        Kind::TooMany => many_word(form),
        Kind::Absent => "absent",
    }
}

// Appends what is told of a part of both folders to a text, which has this word.
fn push_both_by(
    finders: &mut Finders<'_>,
    teller: Teller,
    how: How,
    compared: &Compared<'_>,
    both: &BothFound<'_>,
    kind: Kind,
    out: &mut Vec<u8>,
) -> Result<(), AllocError>
    requires { FindIn (seen_folder compared.now.old.now) (seen_folder compared.now.new.now) finders.old }
    ensures told { OnOk result (out.new.items ≡ out.old.items ++ both_by teller.form how.stat (seen_folder compared.now.old.now) (seen_folder compared.now.new.now) (seen_both both.now) kind) }
    ensures same { finders.new ≡ finders.old }
{
    if is_same(kind) {
        return Ok(());
    }
    push_headed(
        teller,
        kind_word(teller.form, kind),
        both.part.name.as_slice(),
        out,
    )?;
    if how.stat {
        return Ok(());
    }
    push_below(finders, teller, compared, both, out)
}

// Appends what is told of a name to a text.
fn push_found(
    finders: &mut Finders<'_>,
    teller: Teller,
    how: How,
    compared: &Compared<'_>,
    found: &Found<'_>,
    out: &mut Vec<u8>,
) -> Result<(), AllocError>
    requires { FindIn (seen_folder compared.now.old.now) (seen_folder compared.now.new.now) finders.old }
    ensures told { OnOk result (out.new.items ≡ out.old.items ++ found_text teller.form how.stat (all_left_out compared.now.left_out.now.heads.items)
        (seen_folder compared.now.old.now) (seen_folder compared.now.new.now) (seen_found found.now)) }
    ensures same { finders.new ≡ finders.old }
{
    match &found.finding {
        Finding::Absent => push_absent(teller, &found.name, out),
        Finding::Gone(part) => push_gone(teller, compared.left_out, part, out),
        Finding::New(part) => push_headed(teller, "new", part.name.as_slice(), out),
        Finding::Both(both) => {
            let kind = kind_of_both(both);
            push_both_by(finders, teller, how, compared, both, kind, out)
        }
    }
}

// The same of all names.
fn push_each(
    finders: &mut Finders<'_>,
    teller: Teller,
    how: How,
    compared: &Compared<'_>,
    found: &[Found<'_>],
    out: &mut Vec<u8>,
) -> Result<(), AllocError>
    requires { FindIn (seen_folder compared.now.old.now) (seen_folder compared.now.new.now) finders.old }
    ensures told { OnOk result (out.new.items ≡ out.old.items ++ all_text teller.form how.stat (all_left_out compared.now.left_out.now.heads.items)
        (seen_folder compared.now.old.now) (seen_folder compared.now.new.now) (map seen_found found.now)) }
    ensures same { finders.new ≡ finders.old }
{
    let mut rest = found;
    while let [one, behind @ ..] = rest {
        push_found(finders, teller, how, compared, one, out)?;
        rest = behind;
    }
    Ok(())
}

/// Appends what is told of names to a text, of each in its turn: that the old folder or the new one alone has somebody of it, that nobody has it, or, where both
/// have and something is answered otherwise, in a word what changes, and below that the modes, rules, capabilities, sockets and starts of programs, unless the words
/// alone are to be told.
///
/// As lines a word and the full name tell somebody, and what is below stands behind blanks. As records these are of the kinds `gone`, `unread`, `new`, `absent`,
/// `wider`, `narrower`, `both`, `otherwise` and `too_many`, with the full name (`name`), and of the kinds `mode`, `less`, `more`, `path`, `nothing`,
/// `capability`, `sockets` and `start`, each with the full name.
///
/// # Errors
///
/// Where memory runs out. A beginning may have been appended then.
pub fn push_all(
    teller: Teller,
    how: How,
    compared: &Compared<'_>,
    found: &[Found<'_>],
    out: &mut Vec<u8>,
) -> Result<(), AllocError>
    ensures { OnOk result (out.new.items ≡ out.old.items ++ all_text teller.form how.stat (all_left_out compared.now.left_out.now.heads.items)
        (seen_folder compared.now.old.now) (seen_folder compared.now.new.now) (map seen_found found.now)) }
{
    let mut finders = finders_in(teller.alloc, compared.old, compared.new);
    push_each(&mut finders, teller, how, compared, found, out)
}
