//! The tokens of a file, each Include replaced by the tokens of the files that it includes.

ghost use Rattle.std.specs.Prelude.{◌≡◌, ◌≢◌, true, is_some, map, None, Ok, Err, IfOk, IfErr};
ghost use Rattle.aa_text_files.specs.Files.{file_at};
ghost use Rattle.aa_text_files.specs.declared.text_error.TextRefusal.TheVariants.{Memory};
ghost use Rattle.aa_text_tokens.specs.Splicing.{spliced};
ghost use Rattle.aa_text_tokens.specs.SeenSplicedTokens.{seen_spliced};

use crate::spliced_token::Spliced;
use crate::splicer::Splicer;
use aa_text_files::{Files, TextError, TextRefusal};
use std::alloc::Global;

/// How deep includes may be nested.
pub const DEEPEST: usize = 16;

/// Returns the tokens of the file of that name, each Include replaced by the tokens of the files that it includes. Tokens borrow the text of
/// `files`.
///
/// # Errors
///
/// The first fault: faults of a file's own text come before any of what it includes, and Includes are read in order.
/// - `NoFile`: no file has the name, with no place; or no file or folder has the name of an Include without `if exists`, at the Include.
/// - `TextTooBig`: more than 16,777,216 bytes are entered, each file's as often as it is. The place is that of the Include that enters the file;
///   there is none where the first file alone has more.
/// - `ZeroByte`: a file holds a zero byte, at the first one.
/// - `OpenQuote` and `OpenOther`: a file can't be cut into tokens, at the first such place.
/// - `IncludeDepth`: an Include is nested in 16 others, unless it includes nothing.
/// - `Memory`, with no place: memory ran out. `NoFile` for `name` itself is returned without allocating.
pub fn spliced<'a>(
    alloc: Global,
    files: &'a Files,
    name: &[u8],
) -> Result<Vec<Spliced<'a>>, TextError>
    ensures ok { IfOk result (λ all. spliced files.now name.now ≡ Ok (map seen_spliced all.items)) }
    ensures refused { IfErr result (λ error. error.refusal ≢ Memory → spliced files.now name.now ≡ Err (error.refusal, error.place)) }
    ensures memory { IfErr result (λ error. error.refusal ≡ Memory → (error.place ≡ None) × (is_some (file_at files.now name.now) ≡ true)) }
{
    let Some(file) = files.position(name) else {
        return Err(TextError {
            refusal: TextRefusal::NoFile,
            place: None,
        });
    };
    let mut splicer = Splicer::new(alloc, files);
    splicer.enter(DEEPEST, file, None)?;
    Ok(splicer.into_tokens())
}
