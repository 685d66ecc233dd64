//! Headings, which only lines for people have.

ghost use Rattle.std.specs.Prelude.{◌≡◌, ◌++◌, OnOk};
ghost use Rattle.aatry_report.specs.Headings.{heading_line};

use crate::form::Form;
use std::alloc::AllocError;

/// Appends a heading to a text, on a line of its own, in lines; records have none.
///
/// # Errors
///
/// Where memory runs out. A beginning may have been appended then.
pub fn push_heading(form: Form, words: &str, out: &mut Vec<u8>) -> Result<(), AllocError>
    ensures { OnOk result (out.new.items ≡ out.old.items ++ heading_line form words.now) }
{
    match form {
        Form::Lines => {
            out.extend_from_slice(words.as_bytes())?;
            out.push(b'\n')?;
            Ok(())
        }
        Form::Records => Ok(()),
    }
}
