//! Entering files: the tokens of a file, each Include replaced by the tokens of what it includes.

ghost use Rattle.std.specs.Prelude.{◌≡◌, ◌≢◌, ◌≤◌, ◌<◌, ◌==◌, ◌++◌, ◌∷◌, [], ℕ, List, length, not, map, option_map, Some, None, Ok, Err};
ghost use Rattle.std.specs.Prelude.{IfOk, OnOk, IfErr, if◌then◌else◌};
ghost use Rattle.std.specs.List.{prefix_len};
ghost use Rattle.aa_text_tokens.specs.Cut.{Seen};
ghost use Rattle.aa_text_tokens.specs.SeenTokens.{seen};
ghost use Rattle.aa_text_files.specs.Limit.{most_bytes};
ghost use Rattle.aa_text_files.specs.TextError.{plain};
ghost use Rattle.aa_text_files.specs.declared.text_error.TextRefusal.TheVariants.{IncludeDepth, Memory, NoFile};
ghost use Rattle.aa_text_tokens.specs.Splicing.{Way, entered, refusal_of, walked};
ghost use Rattle.aa_text_tokens.specs.code.SplicingProgress.{AreTokensOf, IsFaultOf, IsIncluded, IsPut, IsRead, IsRefused, with_each};
ghost use Rattle.aa_text_tokens.specs.code.SplicingProgress.{with_file, with_token, with_walked};
ghost use Rattle.aa_text_tokens.specs.SeenSplicedTokens.{seen_spliced};

use crate::cut::{CutFault, CutRefusal, Token, TokenKind, tokens};
use crate::spliced_token::Spliced;
use crate::targets::target;
use aa_bytes::{has_byte, length_while};
use aa_text_files::{Files, MOST_BYTES, Place, TextError, TextRefusal};
use std::alloc::Global;
use std::marker::Model;

// How many bytes a text has before its first zero byte.
fn size_before_zero(text: &[u8]) -> usize
    ensures { result ≡ prefix_len (λ b. not (b == 0)) text.now }
{
    length_while(text, |byte| byte != 0)
}

// The error for a file whose text can't be cut.
fn refusal_of(refusal: CutRefusal) -> TextRefusal
    ensures { result ≡ refusal_of refusal }
{
    match refusal {
        CutRefusal::OpenQuote => TextRefusal::OpenQuote,
        CutRefusal::OpenOther => TextRefusal::OpenOther,
        CutRefusal::Memory => TextRefusal::Memory,
    }
}

// The fault of a file's text, with the file.
fn fault_in(file: usize, fault: CutFault) -> TextError
    ensures refusal { result.refusal ≡ refusal_of fault.refusal }
    ensures place { result.place ≡ option_map (λ at. record { file = file; at = at }) fault.at }
{
    TextError {
        refusal: refusal_of(fault.refusal),
        place: fault.at.map(|at| Place { file, at }),
    }
}

// The tokens of a file that is entered for the Include at `place`, with `before` bytes entered before, and how many bytes are entered with it.
fn file_tokens<'a>(
    alloc: Global,
    files: &'a Files,
    file: usize,
    before: usize,
    place: Option<Place>,
) -> Result<(Vec<Token<'a>>, usize), TextError>
    requires { before ≤ most_bytes }
    ensures ok { IfOk result (λ read. AreTokensOf files.now file before place (map seen read.0.items) read.1) }
    ensures within { IfOk result (λ read. read.1 ≤ most_bytes) }
    ensures refused { IfErr result (λ error. (way : Way) → IsFaultOf error (entered files.now way file before place)) }
    ensures memory { IfErr result (λ error. error.refusal ≡ Memory → error.place ≡ None) }
{
    let bytes = files.bytes_at(file);
    if bytes.len() > MOST_BYTES - before {
        return Err(TextError {
            refusal: TextRefusal::TextTooBig,
            place,
        });
    }
    if has_byte(0, bytes) {
        return Err(TextError {
            refusal: TextRefusal::ZeroByte,
            place: Some(Place {
                file,
                at: size_before_zero(bytes),
            }),
        });
    }
    match tokens(alloc, bytes) {
        Ok(found) => Ok((found, before + bytes.len())),
        Err(fault) => Err(fault_in(file, fault)),
    }
}

// The fault of an Include at a place whose files can't be entered: the depth is checked before the name.
fn include_fault(depth: usize, place: Place) -> TextError
    ensures refusal { result.refusal ≡ (if depth == 0 then IncludeDepth else NoFile) }
    ensures place { result.place ≡ Some place }
{
    TextError {
        refusal: if depth == 0 {
            TextRefusal::IncludeDepth
        } else {
            TextRefusal::NoFile
        },
        place: Some(place),
    }
}

/// The tokens of the files entered so far, each Include replaced by the tokens of what it includes.
#[derive(Drop)]
pub struct Splicer<'a> {
    alloc: Global,
    files: &'a Files,
    tokens: Vec<Spliced<'a>>,
    // How many bytes were entered so far, each file's as often as it was entered.
    bytes: usize,
}

impl<'a> Model for Splicer<'a> {
    ghost use Rattle.std.specs.Prelude.{◌≤◌, map};
    ghost use Rattle.aa_text_files.specs.Limit.{most_bytes};
    ghost use Rattle.aa_text_tokens.specs.code.SplicingProgress.{Progress};
    ghost use Rattle.aa_text_tokens.specs.SeenSplicedTokens.{seen_spliced};

    ghost Value = { Progress };

    ghost view = { λ s. record { files = s.files.now; tokens = map seen_spliced s.tokens.items; bytes = s.bytes } };

    // The files that were entered have no more bytes than `MOST_BYTES`.
    ghost invariant = { λ s. s.bytes ≤ most_bytes };
}

impl<'a> Splicer<'a> {
    /// No tokens yet, of these files. It takes no memory.
    pub fn new(alloc: Global, files: &'a Files) -> Splicer<'a>
        ensures { result ≡ record { files = files.now; tokens = []; bytes = 0 } }
    {
        Splicer {
            alloc,
            files,
            tokens: Vec::new(alloc),
            bytes: 0,
        }
    }

    /// The tokens, which aren't copied. It takes no memory.
    pub fn into_tokens(self) -> Vec<Spliced<'a>>
        ensures { map seen_spliced result.items ≡ self.entry.tokens }
    {
        let Splicer { tokens, .. } = self;
        tokens
    }

    // The tokens of a file that is entered for an Include at a place; its bytes are counted.
    fn read(&mut self, file: usize, place: Option<Place>) -> Result<Vec<Token<'a>>, TextError>
        ensures ok { IfOk result (λ read. IsRead self.old self.new file place (map seen read.items)) }
        ensures refused { IfErr result (λ error. (depth : ℕ) → IsFaultOf error (with_file self.old depth file place)) }
        ensures memory { IfErr result (λ error. error.refusal ≡ Memory → error.place ≡ None) }
    {
        let (read, bytes) = file_tokens(self.alloc, self.files, file, self.bytes, place)?;
        self.bytes = bytes;
        Ok(read)
    }

    // Appends a token of a file.
    fn push(&mut self, file: usize, token: Token<'a>) -> Result<(), TextError>
        ensures ok { OnOk result (self.new ≡ with_token self.old file (seen token.entry)) }
        ensures err { IfErr result (λ error. error ≡ plain Memory) }
    {
        self.tokens.push(Spliced { file, token })?;
        Ok(())
    }

    // The files that are entered for an Include at a place; the depth matters only where there are any.
    fn included(
        &self,
        depth: usize,
        place: Place,
        name: &[u8],
        if_exists: bool,
    ) -> Result<Vec<usize>, TextError>
        ensures ok { IfOk result (λ found. IsIncluded self.now.files depth place name.now if_exists found.items) }
        ensures deep { IfOk result (λ found. 0 < length found.items → 0 < depth) }
        ensures refused { IfErr result (λ error. IsRefused self.now.files depth place name.now if_exists error) }
        ensures memory { IfErr result (λ error. error.refusal ≡ Memory → error.place ≡ None) }
    {
        let Some(found) = target(self.alloc, self.files, name, if_exists)? else {
            return Err(include_fault(depth, place));
        };
        if depth == 0 && !found.is_empty() {
            return Err(include_fault(depth, place));
        }
        Ok(found)
    }

    /// Appends the tokens of a file that is entered for an Include at a place, each Include in it replaced; includes may be nested so many levels
    /// deeper.
    ///
    /// # Errors
    ///
    /// The first fault of the file or of one that it includes. Some of its tokens may then have been appended.
    #[cycle(entering)]
    pub fn enter(
        &mut self,
        depth: usize,
        file: usize,
        place: Option<Place>,
    ) -> Result<(), TextError>
        ensures ok { OnOk result (with_file self.old depth file place ≡ Ok self.new) }
        ensures refused { IfErr result (λ error. IsFaultOf error (with_file self.old depth file place)) }
        ensures memory { IfErr result (λ error. error.refusal ≡ Memory → error.place ≡ None) }
    {
        let tokens = self.read(file, place)?;
        for token in &tokens {
            self.put_token(depth, file, *token)?;
        }
        Ok(())
    }

    // Appends a token of a file, or the tokens of what it includes.
    #[cycle(entering)]
    fn put_token(&mut self, depth: usize, file: usize, token: Token<'a>) -> Result<(), TextError>
        ensures ok { OnOk result (IsPut self.old self.new depth file (seen token.entry)) }
        ensures refused { IfErr result (λ error. (rest : List Seen) → IsFaultOf error (with_walked self.old depth file (seen token.entry ∷ rest))) }
        ensures memory { IfErr result (λ error. error.refusal ≡ Memory → error.place ≡ None) }
    {
        match token.kind {
            TokenKind::Include { if_exists } => {
                let place = Place {
                    file,
                    at: token.start,
                };
                let found = self.included(depth, place, token.text, if_exists)?;
                self.enter_each(depth, place, &found)?;
                Ok(())
            }
            _ => {
                self.push(file, token)?;
                Ok(())
            }
        }
    }

    // Enters files for an Include at a place in a file where includes may be nested so many levels deeper.
    #[cycle(entering)]
    fn enter_each(&mut self, depth: usize, place: Place, found: &[usize]) -> Result<(), TextError>
        requires { 0 < length found.now → 0 < depth }
        ensures ok { OnOk result (with_each self.old depth place found.now ≡ Ok self.new) }
        ensures refused { IfErr result (λ error. IsFaultOf error (with_each self.old depth place found.now)) }
        ensures memory { IfErr result (λ error. error.refusal ≡ Memory → error.place ≡ None) }
    {
        for file in found {
            self.enter(depth - 1, *file, Some(place))?;
        }
        Ok(())
    }
}
