//! What is reported in place of rules where none decides.

ghost use Rattle.std.specs.Prelude.{◌≡◌, ◌++◌, OnOk};
ghost use Rattle.aatry_why.specs.Unasked.{unasked_lines};

use aatry_report::{Field, Teller, push_heading, tell};
use std::alloc::AllocError;

/// Appends that no rule decides, since the asker is in mode unconfined: a line below the word `mode`; or, in records, a record of the kind `mode`,
/// with the member `mode`.
///
/// # Errors
///
/// Where memory runs out. A beginning may have been appended then.
pub fn push_unasked(teller: Teller, out: &mut Vec<u8>) -> Result<(), AllocError>
    ensures { OnOk result (out.new.items ≡ out.old.items ++ unasked_lines teller.form) }
{
    push_heading(teller.form, "mode", out)?;
    tell(
        teller,
        "mode",
        &[
            Field::Words("  no rule is asked in mode "),
            Field::Word("mode", "unconfined"),
        ],
        out,
    )
}
