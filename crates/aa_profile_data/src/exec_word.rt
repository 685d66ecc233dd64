//! The exec words of rules: under which profile a program runs that is started.

ghost use Rattle.std.specs.Prelude.{◌≡◌, false, true};
ghost use Rattle.aa_profile_data.specs.ExecWords.{exec_word, row, same_word, seen_row, word_among};

/// Where an exec word leads.
#[derive(Clone, Copy)]
pub enum Destination {
    /// To a profile: the one that the rule names, or else the one that attaches to the program.
    Profile,
    /// To a child or a hat of the profile that asks: the one that the rule names, or else the child that attaches to the program.
    Child,
    /// To the profile that asks.
    Inherit,
    /// To no profile.
    Unconfined,
}

/// An exec word of a rule: under which profile a program runs that is started (apparmor.d(5), "Execute Rules").
#[derive(Clone, Copy, Debug, PartialEq, Eq)]
pub enum ExecWord {
    /// `ix`
    Inherit,
    /// `ux`
    Unconfined,
    /// `Ux`
    UnconfinedScrub,
    /// `px`
    Profile,
    /// `Px`
    ProfileScrub,
    /// `cx`
    Child,
    /// `Cx`
    ChildScrub,
    /// `pix`
    ProfileInherit,
    /// `Pix`
    ProfileInheritScrub,
    /// `cix`
    ChildInherit,
    /// `Cix`
    ChildInheritScrub,
    /// `pux`
    ProfileUnconfined,
    /// `PUx`
    ProfileUnconfinedScrub,
    /// `cux`
    ChildUnconfined,
    /// `CUx`
    ChildUnconfinedScrub,
}

// Each exec word.
const WORDS: [ExecWord; 15] = [
    ExecWord::Inherit,
    ExecWord::Unconfined,
    ExecWord::UnconfinedScrub,
    ExecWord::Profile,
    ExecWord::ProfileScrub,
    ExecWord::Child,
    ExecWord::ChildScrub,
    ExecWord::ProfileInherit,
    ExecWord::ProfileInheritScrub,
    ExecWord::ChildInherit,
    ExecWord::ChildInheritScrub,
    ExecWord::ProfileUnconfined,
    ExecWord::ProfileUnconfinedScrub,
    ExecWord::ChildUnconfined,
    ExecWord::ChildUnconfinedScrub,
];

// A row of the table of exec words.
#[derive(Clone, Copy)]
struct Row {
    text: &'static str,
    destination: Destination,
    fallback: Option<Destination>,
    scrubs: bool,
}

// A row of a word that doesn't scrub.
fn kept(text: &'static str, destination: Destination, fallback: Option<Destination>) -> Row
    ensures { result ≡ record { text = text.entry; destination = destination; fallback = fallback; scrubs = false } }
{
    Row {
        text,
        destination,
        fallback,
        scrubs: false,
    }
}

// A row of a word that scrubs.
fn scrubbed(text: &'static str, destination: Destination, fallback: Option<Destination>) -> Row
    ensures { result ≡ record { text = text.entry; destination = destination; fallback = fallback; scrubs = true } }
{
    Row {
        text,
        destination,
        fallback,
        scrubs: true,
    }
}

// The one of these exec words whose text this is, or `None`.
fn word_among(words: &[ExecWord], text: &[u8]) -> Option<ExecWord>
    ensures { result ≡ word_among words.now text.now }
{
    let mut rest = words;
    while let [word, behind @ ..] = rest {
        if word.text().as_bytes() == text {
            return Some(*word);
        }
        rest = behind;
    }
    None
}

impl ExecWord {
    // The word's row in the one table of exec words.
    fn row(self) -> Row
        ensures { seen_row result ≡ row self }
    {
        const INHERIT: Option<Destination> = Some(Destination::Inherit);
        const UNCONFINED: Option<Destination> = Some(Destination::Unconfined);
        match self {
            ExecWord::Inherit => kept("ix", Destination::Inherit, None),
            ExecWord::Unconfined => kept("ux", Destination::Unconfined, None),
            ExecWord::UnconfinedScrub => scrubbed("Ux", Destination::Unconfined, None),
            ExecWord::Profile => kept("px", Destination::Profile, None),
            ExecWord::ProfileScrub => scrubbed("Px", Destination::Profile, None),
            ExecWord::Child => kept("cx", Destination::Child, None),
            ExecWord::ChildScrub => scrubbed("Cx", Destination::Child, None),
            ExecWord::ProfileInherit => kept("pix", Destination::Profile, INHERIT),
            ExecWord::ProfileInheritScrub => scrubbed("Pix", Destination::Profile, INHERIT),
            ExecWord::ChildInherit => kept("cix", Destination::Child, INHERIT),
            ExecWord::ChildInheritScrub => scrubbed("Cix", Destination::Child, INHERIT),
            ExecWord::ProfileUnconfined => kept("pux", Destination::Profile, UNCONFINED),
            ExecWord::ProfileUnconfinedScrub => scrubbed("PUx", Destination::Profile, UNCONFINED),
            ExecWord::ChildUnconfined => kept("cux", Destination::Child, UNCONFINED),
            ExecWord::ChildUnconfinedScrub => scrubbed("CUx", Destination::Child, UNCONFINED),
        }
    }

    /// The word as rules write it, in ASCII letters.
    pub fn text(self) -> &'static str
        ensures { result.now ≡ (row self).text }
    {
        self.row().text
    }

    /// Where the word leads.
    pub fn destination(self) -> Destination
        ensures { result ≡ (row self).destination }
    {
        self.row().destination
    }

    /// Where it leads if there is no such profile, child or hat; `None` where it has no fallback.
    pub fn fallback(self) -> Option<Destination>
        ensures { result ≡ (row self).fallback }
    {
        self.row().fallback
    }

    /// Whether the program's environment is scrubbed, wherever the word leads.
    pub fn scrubs(self) -> bool
        ensures { result ≡ (row self).scrubs }
    {
        self.row().scrubs
    }

    /// Whether two words are the same.
    pub fn is_same(self, other: ExecWord) -> bool
        ensures { result ≡ same_word self other }
    {
        self.text().as_bytes() == other.text().as_bytes()
    }

    /// The exec word of a text, or `None` where the text is no exec word. It takes no memory.
    pub fn of_text(text: &[u8]) -> Option<ExecWord>
        ensures { result ≡ exec_word text.now }
    {
        word_among(&WORDS, text)
    }
}
