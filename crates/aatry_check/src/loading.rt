//! The report on how a file is loaded.

ghost use Rattle.std.specs.Prelude.{◌≡◌, ◌++◌, IfOk, OnOk, map};
ghost use Rattle.aatry_check.specs.Loading.{cause_of, loading_in, loading_told, state_word, told_loading};
ghost use Rattle.aatry_folder.specs.Loadings.{seen_top};
ghost use Rattle.aatry_report.specs.FilePlaces.{path_below};

use aatry_folder::{Loading, TopFile};
use aatry_report::{Field, Teller, path_below, tell};
use std::alloc::{AllocError, Global};

/// How a file of a name is loaded: like the first file of that name at the top, and by its flags where none has the name. `O(n)` in the number of
/// these files. It takes no memory.
pub fn loading_in(top: &[TopFile], name: &[u8]) -> Loading
    ensures { result ≡ loading_in (map seen_top top.now) name.now }
{
    let mut rest = top;
    while let [file, behind @ ..] = rest {
        if file.name.as_bytes() == name {
            return file.loading;
        }
        rest = behind;
    }
    Loading::ByFlags
}

// The word of the state in which a file's profiles are loaded; empty where they are loaded by their flags.
fn state_word(loading: Loading) -> &'static str
    ensures { result.now ≡ state_word loading }
{
    match loading {
        Loading::ByFlags => "",
        Loading::ForceComplain => "complain",
        Loading::Disable => "disabled",
    }
}

// The folder whose entry is the cause of that state.
fn cause_of(loading: Loading) -> &'static str
    ensures { result.now ≡ cause_of loading }
{
    match loading {
        Loading::ByFlags => "",
        Loading::ForceComplain => "force-complain/",
        Loading::Disable => "disable/",
    }
}

// The path of that entry below the folder of policy.
fn cause_name(alloc: Global, loading: Loading, name: &[u8]) -> Result<Vec<u8>, AllocError>
    ensures { IfOk result (λ cause. cause.items ≡ cause_of loading ++ name.now) }
{
    let mut cause = Vec::new(alloc);
    cause.extend_from_slice(cause_of(loading).as_bytes())?;
    cause.extend_from_slice(name)?;
    Ok(cause)
}

// Appends how a file is loaded to a text, by its path and the cause.
fn push_state<'x>(
    teller: Teller,
    path: &'x [u8],
    loading: Loading,
    cause: &'x [u8],
    out: &mut Vec<u8>,
) -> Result<(), AllocError>
    ensures { OnOk result (out.new.items ≡ out.old.items ++ loading_told teller.form path.now loading cause.now) }
{
    tell(
        teller,
        "loading",
        &[
            Field::Text("file", path),
            Field::Words(": "),
            Field::Word("state", state_word(loading)),
            Field::Words(", by "),
            Field::Text("by", cause),
        ],
        out,
    )
}

/// Appends how a file is loaded to a text, with the cause, where it isn't by its flags.
///
/// # Errors
///
/// Where memory runs out. A beginning may have been appended then.
pub fn push_loading(
    teller: Teller,
    base: &[u8],
    name: &[u8],
    loading: Loading,
    out: &mut Vec<u8>,
) -> Result<(), AllocError>
    ensures { OnOk result (out.new.items ≡ out.old.items ++ told_loading teller.form base.now name.now loading) }
{
    if matches!(loading, Loading::ByFlags) {
        return Ok(());
    }
    let path = path_below(teller.alloc, base, name)?;
    let cause = cause_name(teller.alloc, loading, name)?;
    push_state(teller, &path, loading, &cause, out)
}
