//! Why the text of a file is refused, and where.

ghost use Rattle.std.specs.Prelude.{◌≡◌, Some};
ghost use Rattle.std.specs.Fmt.{DisplaysOnOk};
ghost use Rattle.aa_text_files.specs.TextError.{error_text, name_of, number_of, plain, words_of};
ghost use Rattle.aa_text_files.specs.declared.text_error.TextRefusal.TheVariants.{Memory};

use std::alloc::{AllocError, AllocFailed};
use std::error::Error;
use std::fmt::{self, Display, Formatter, Write};

/// A place in one of the files.
#[derive(Clone, Copy, Debug, PartialEq, Eq)]
pub struct Place {
    /// The index of the file among the files.
    pub file: usize,
    /// The offset of the place in the file, in bytes.
    pub at: usize,
}

// As `file N at OFFSET`: a place doesn't know the name of its file.
impl Display for Place {
    ghost use Rattle.std.specs.Prelude.{Some};
    ghost use Rattle.aa_text_files.specs.TextError.{place_text};

    ghost output = { λ place. Some (place_text place) };

    fn fmt<W: Write>(&self, f: &mut Formatter<W>) -> fmt::Result {
        let file = self.file;
        let at = self.at;
        write!(f, "file {file} at {at}")
    }
}

/// Why the text of a file is refused.
#[derive(Clone, Copy, Debug, PartialEq, Eq)]
pub enum TextRefusal {
    /// A file holds a zero byte.
    ZeroByte,
    /// A quote isn't closed in its line.
    OpenQuote,
    /// The name of an Include isn't closed in its line, or a blank or the text's end comes within the braces of a word.
    OpenOther,
    /// No file of the name is among the files.
    NoFile,
    /// More than 16 includes are nested in one another.
    IncludeDepth,
    /// The files that are entered have more than 16,777,216 bytes together.
    TextTooBig,
    /// A variable isn't defined, or its name isn't closed.
    Undefined,
    /// A variable is defined again, with other values.
    Redefined,
    /// Values are added to a variable that isn't defined.
    AppendUndefined,
    /// A variable leads to itself.
    Cycle,
    /// Memory ran out.
    Memory,
}

// In words, as `words` returns them.
impl Display for TextRefusal {
    ghost use Rattle.std.specs.Prelude.{Some};
    ghost use Rattle.aa_text_files.specs.TextError.{words_of};

    ghost output = { λ refusal. Some (words_of refusal) };

    fn fmt<W: Write>(&self, f: &mut Formatter<W>) -> fmt::Result {
        f.write_str(self.words())
    }
}

/// Why the text of a file is refused, and where.
#[derive(Clone, Copy, Debug, PartialEq, Eq)]
pub struct TextError {
    /// What is wrong.
    pub refusal: TextRefusal,
    /// The place of the fault, if it is known.
    pub place: Option<Place>,
}

/// An error whose place isn't known, or known to the caller alone.
pub fn plain(refusal: TextRefusal) -> TextError
    ensures { result ≡ plain refusal }
{
    TextError {
        refusal,
        place: None,
    }
}

impl TextRefusal {
    /// The number of the refusal: 20 to 29, or 99.
    pub fn number(self) -> u8
        ensures { result ≡ number_of self }
    {
        match self {
            TextRefusal::ZeroByte => 20,
            TextRefusal::OpenQuote => 21,
            TextRefusal::OpenOther => 22,
            TextRefusal::NoFile => 23,
            TextRefusal::IncludeDepth => 24,
            TextRefusal::TextTooBig => 25,
            TextRefusal::Undefined => 26,
            TextRefusal::Redefined => 27,
            TextRefusal::AppendUndefined => 28,
            TextRefusal::Cycle => 29,
            TextRefusal::Memory => 99,
        }
    }

    /// The name of the refusal, as the variant is written.
    pub fn name(self) -> &'static str
        ensures { result.now ≡ name_of self }
    {
        match self {
            TextRefusal::ZeroByte => "ZeroByte",
            TextRefusal::OpenQuote => "OpenQuote",
            TextRefusal::OpenOther => "OpenOther",
            TextRefusal::NoFile => "NoFile",
            TextRefusal::IncludeDepth => "IncludeDepth",
            TextRefusal::TextTooBig => "TextTooBig",
            TextRefusal::Undefined => "Undefined",
            TextRefusal::Redefined => "Redefined",
            TextRefusal::AppendUndefined => "AppendUndefined",
            TextRefusal::Cycle => "Cycle",
            TextRefusal::Memory => "Memory",
        }
    }

    /// What is wrong, in words for users.
    pub fn words(self) -> &'static str
        ensures { result.now ≡ words_of self }
    {
        match self {
            TextRefusal::ZeroByte => "a file holds a zero byte",
            TextRefusal::OpenQuote => "a quote isn't closed in its line",
            TextRefusal::OpenOther => "a name or a brace isn't closed",
            TextRefusal::NoFile => "there is no such file",
            TextRefusal::IncludeDepth => "the includes are nested too deep",
            TextRefusal::TextTooBig => "the files are too long together",
            TextRefusal::Undefined => "a variable isn't defined",
            TextRefusal::Redefined => "a variable is defined twice",
            TextRefusal::AppendUndefined => "values are added to a variable that isn't defined",
            TextRefusal::Cycle => "a variable leads to itself",
            TextRefusal::Memory => "memory ran out",
        }
    }
}

impl TextError {
    /// The number of its refusal: 20 to 29, or 99.
    pub fn number(self) -> u8
        ensures { result ≡ number_of self.refusal }
    {
        self.refusal.number()
    }

    /// The name of its refusal.
    pub fn name(self) -> &'static str
        ensures { result.now ≡ name_of self.refusal }
    {
        self.refusal.name()
    }
}

/// Writes an error as text: its number and name, and its place, if it has one.
pub fn write_error<W: Write>(
    f: &mut Formatter<W>,
    number: u8,
    name: &str,
    place: Option<Place>,
) -> fmt::Result
    ensures { DisplaysOnOk W.write_str_gives f.old result (Some (error_text number name.now place)) f.new }
{
    match place {
        None => write!(f, "{number} {name}"),
        Some(place) => write!(f, "{number} {name} {place}"),
    }
}

impl Display for TextError {
    ghost use Rattle.std.specs.Prelude.{Some};
    ghost use Rattle.aa_text_files.specs.TextError.{error_text, name_of, number_of};

    ghost output = { λ error. Some (error_text (number_of error.refusal) (name_of error.refusal) error.place) };

    fn fmt<W: Write>(&self, f: &mut Formatter<W>) -> fmt::Result {
        write_error(f, self.number(), self.name(), self.place)
    }
}

impl Error for TextError {}

impl From<AllocError> for TextError {
    ghost from_gives = { λ _ error. error ≡ plain Memory };

    fn from(_: AllocError) -> Self {
        plain(TextRefusal::Memory)
    }
}

impl<T: Drop> From<AllocFailed<T>> for TextError {
    ghost from_gives = { λ _ error. error ≡ plain Memory };

    fn from(_: AllocFailed<T>) -> Self {
        plain(TextRefusal::Memory)
    }
}
