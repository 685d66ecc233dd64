//! The report on profiles of files that are left out, on which an answer could depend.

ghost use Rattle.std.specs.Prelude.{◌≡◌, ◌++◌, OnOk, None, flat_map, option_map};
ghost use Rattle.aatry_report.specs.SeenFields.{seen_field};
ghost use Rattle.aatry_uncertain.specs.SeenHeads.{all_left_out, seen_left_out};
ghost use Rattle.aatry_uncertain.specs.Told.{attachment, attachment_words, name_lines, name_text, profile_text, start_lines, start_text, unsure_text};

use crate::fitting::may_fit;
use crate::left_out::{LeftOutHead, LeftOutHeads};
use aa_profile_data::cut_full_name;
use aatry_report::{Field, Teller, path_below, tell};
use std::alloc::AllocError;

// The words before the pattern by which a profile may attach, if it is given.
fn attachment_words<'x>(pattern: Option<&[u8]>) -> Field<'x>
    ensures { seen_field result ≡ attachment_words (option_map (λ text. text.now) pattern.entry) }
{
    match pattern {
        None => Field::Words(""),
        Some(_) => Field::Words(", which may be attached by "),
    }
}

// The pattern, if it is given.
fn attachment(pattern: Option<&[u8]>) -> Field<'_>
    ensures { seen_field result ≡ attachment (option_map (λ text. text.now) pattern.entry) }
{
    match pattern {
        None => Field::Words(""),
        Some(pattern) => Field::Quoted("pattern", pattern),
    }
}

// Appends a profile of a file that is left out to a text, by the file's path.
fn push_unsure<'x>(
    teller: Teller,
    path: &'x [u8],
    name: &'x [u8],
    pattern: Option<&'x [u8]>,
    out: &mut Vec<u8>,
) -> Result<(), AllocError>
    ensures { OnOk result (out.new.items
        ≡ out.old.items ++ unsure_text teller.form path.now name.now (option_map (λ text. text.now) pattern.entry)) }
{
    tell(
        teller,
        "uncertain",
        &[
            Field::Words("uncertain: "),
            Field::Text("file", path),
            Field::Words(" is left out, with the profile "),
            Field::Quoted("name", name),
            attachment_words(pattern),
            attachment(pattern),
        ],
        out,
    )
}

// Appends a profile of a file that is left out to a text, if it may attach to a path.
fn push_start(
    teller: Teller,
    base: &[u8],
    path: &[u8],
    left_out: LeftOutHead<'_>,
    out: &mut Vec<u8>,
) -> Result<(), AllocError>
    ensures { OnOk result (out.new.items ≡ out.old.items ++ start_text teller.form base.now path.now (seen_left_out left_out.entry)) }
{
    if !may_fit(teller.alloc, left_out.head.attachment, path)? {
        return Ok(());
    }
    let file = path_below(teller.alloc, base, left_out.file.as_bytes())?;
    push_unsure(
        teller,
        &file,
        left_out.head.name,
        left_out.head.attachment,
        out,
    )
}

// Appends each profile of files that are left out to a text that may attach to a path.
fn push_starts(
    teller: Teller,
    base: &[u8],
    path: &[u8],
    heads: &[LeftOutHead<'_>],
    out: &mut Vec<u8>,
) -> Result<(), AllocError>
    ensures { OnOk result (out.new.items ≡ out.old.items ++ start_lines teller.form base.now path.now (all_left_out heads.now)) }
{
    let mut rest = heads;
    while let [head, behind @ ..] = rest {
        push_start(teller, base, path, *head, out)?;
        rest = behind;
    }
    Ok(())
}

/// Appends the profiles of files that are left out to a text which may attach to the path of a program, as far as their heads can be read: a line
/// `uncertain: FILE is left out, with the profile NAME, which may be attached by PATTERN`, or a record of the kind `uncertain`, with `file`, `name`
/// and `pattern`.
///
/// # Errors
///
/// Where memory runs out. A beginning may have been appended then.
pub fn push_unsure_starts(
    teller: Teller,
    left_out: &LeftOutHeads<'_>,
    path: &[u8],
    out: &mut Vec<u8>,
) -> Result<(), AllocError>
    ensures { OnOk result (out.new.items
        ≡ out.old.items ++ start_lines teller.form left_out.now.base.now path.now (all_left_out left_out.now.heads.items)) }
{
    push_starts(teller, left_out.base.as_bytes(), path, &left_out.heads, out)
}

/// Appends a profile of a file that is left out to a text, whatever its attachment, by the path of its folder: a line `uncertain: FILE is left out,
/// with the profile NAME`, or a record of the kind `uncertain`, with `file` and `name`.
///
/// # Errors
///
/// Where memory runs out. A beginning may have been appended then.
pub fn push_unsure_profile(
    teller: Teller,
    base: &[u8],
    left_out: LeftOutHead<'_>,
    out: &mut Vec<u8>,
) -> Result<(), AllocError>
    ensures { OnOk result (out.new.items ≡ out.old.items ++ profile_text teller.form base.now (seen_left_out left_out.entry)) }
{
    let file = path_below(teller.alloc, base, left_out.file.as_bytes())?;
    push_unsure(teller, &file, left_out.head.name, None, out)
}

// Appends a profile of a file that is left out to a text, if it has this name.
fn push_name(
    teller: Teller,
    base: &[u8],
    name: &[u8],
    left_out: LeftOutHead<'_>,
    out: &mut Vec<u8>,
) -> Result<(), AllocError>
    ensures { OnOk result (out.new.items ≡ out.old.items ++ name_text teller.form base.now name.now (seen_left_out left_out.entry)) }
{
    if left_out.head.name != name {
        return Ok(());
    }
    push_unsure_profile(teller, base, left_out, out)
}

// Appends each profile of files that are left out to a text that has this name.
fn push_names(
    teller: Teller,
    base: &[u8],
    name: &[u8],
    heads: &[LeftOutHead<'_>],
    out: &mut Vec<u8>,
) -> Result<(), AllocError>
    ensures { OnOk result (out.new.items ≡ out.old.items ++ flat_map (name_text teller.form base.now name.now) (all_left_out heads.now)) }
{
    let mut rest = heads;
    while let [head, behind @ ..] = rest {
        push_name(teller, base, name, *head, out)?;
        rest = behind;
    }
    Ok(())
}

/// Appends the profiles of files that are left out to a text which have the name of the profile in a full name, as far as their heads can be read
/// (`push_unsure_profile`).
///
/// # Errors
///
/// Where memory runs out. A beginning may have been appended then.
pub fn push_unsure_names(
    teller: Teller,
    left_out: &LeftOutHeads<'_>,
    full: &[u8],
    out: &mut Vec<u8>,
) -> Result<(), AllocError>
    ensures { OnOk result (out.new.items
        ≡ out.old.items ++ name_lines teller.form left_out.now.base.now full.now (all_left_out left_out.now.heads.items)) }
{
    let (profile, _) = cut_full_name(full);
    push_names(
        teller,
        left_out.base.as_bytes(),
        profile,
        &left_out.heads,
        out,
    )
}
