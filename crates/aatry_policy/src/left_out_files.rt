//! The files that are left out of a policy set.

ghost use Rattle.std.specs.Prelude.{◌≡◌, ◌++◌, IfOk, OnOk, map};
ghost use Rattle.aatry_folder.specs.Loadings.{file_names, seen_top};
ghost use Rattle.aatry_policy.specs.LeftOut.{left_out_if, left_out_of};
ghost use Rattle.aatry_policy.specs.SeenLeftOut.{all_left_out};

use aa_set_commands::Refusal;
use aatry_folder::TopFile;
use std::alloc::{AllocError, Global};

/// A file that is left out of a policy set.
#[derive(Clone, Copy)]
pub struct LeftOut<'a> {
    /// Its name in its folder.
    pub name: &'a str,
    /// Why it is refused.
    pub refusal: Refusal,
}

// Appends a file to `files`, if it is left out.
fn push_if<'a>(
    name: &'a str,
    outcome: Option<Refusal>,
    files: &mut Vec<LeftOut<'a>>,
) -> Result<(), AllocError>
    ensures { OnOk result (all_left_out files.new.items ≡ all_left_out files.old.items ++ left_out_if name.now outcome) }
{
    match outcome {
        None => Ok(()),
        Some(refusal) => {
            files.push(LeftOut { name, refusal })?;
            Ok(())
        }
    }
}

/// Those of some files that are left out, in their order, by whether each was refused.
///
/// # Errors
///
/// Where memory runs out.
pub fn left_out_of<'a>(
    alloc: Global,
    top: &'a [TopFile],
    outcomes: &[Option<Refusal>],
) -> Result<Vec<LeftOut<'a>>, AllocError>
    ensures { IfOk result (λ files. all_left_out files.items ≡ left_out_of (file_names (map seen_top top.now)) outcomes.now) }
{
    let mut files = Vec::new(alloc);
    let mut left = outcomes;
    let mut rest = top;
    while let [file, behind @ ..] = rest {
        let [outcome, more @ ..] = left else {
            break;
        };
        push_if(file.name.as_str(), *outcome, &mut files)?;
        rest = behind;
        left = more;
    }
    Ok(files)
}
