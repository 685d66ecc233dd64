//! The headings of askers' rules.

ghost use Rattle.std.specs.Prelude.{◌≡◌, ◌++◌, IfOk, OnOk};
ghost use Rattle.std.specs.Option.{option_copied};
ghost use Rattle.aatry_log_rules.specs.Headings.{file_for, heading, heading_text, is_of};

use aa_bytes::push_text;
use aa_profile_data::cut_full_name;
use aatry_policy::{Origin, file_of, origin_in};
use aatry_report::{Form, path_below, push_shown};
use std::alloc::{AllocError, Global};

/// The path of the file in which the asker's profile was read.
///
/// # Errors
///
/// Where memory runs out.
pub fn file_for(
    alloc: Global,
    base: &[u8],
    origins: &[Origin],
    who: &[u8],
) -> Result<Vec<u8>, AllocError>
    ensures { IfOk result (λ path. path.items ≡ file_for base.now origins.now who.now) }
{
    let (profile, _) = cut_full_name(who);
    path_below(alloc, base, file_of(origin_in(origins, profile)))
}

// Appends the heading of an asker's rules to a text, by the path of their file.
fn push_line(path: &[u8], who: &[u8], out: &mut Vec<u8>) -> Result<(), AllocError>
    ensures { OnOk result (out.new.items ≡ out.old.items ++ heading path.now who.now) }
{
    out.extend_from_slice(b"# ")?;
    push_shown(out, path)?;
    out.extend_from_slice(b": profile ")?;
    push_text(out, who)?;
    out.push(b'\n')?;
    Ok(())
}

/// Whether the last name is that of the asker, too.
pub fn is_of(last: Option<&[u8]>, who: &[u8]) -> bool
    ensures { result ≡ is_of (option_copied last.entry) who.now }
{
    match last {
        None => false,
        Some(name) => name == who,
    }
}

/// Appends the heading of an asker's rules to a text; records have none.
///
/// # Errors
///
/// Where memory runs out. A beginning may have been appended then.
pub fn push_heading(
    form: Form,
    path: &[u8],
    who: &[u8],
    out: &mut Vec<u8>,
) -> Result<(), AllocError>
    ensures { OnOk result (out.new.items ≡ out.old.items ++ heading_text form path.now who.now) }
{
    match form {
        Form::Records => Ok(()),
        Form::Lines => push_line(path, who, out),
    }
}
