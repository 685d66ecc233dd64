//! What is told of the modes of those who are asked about.

ghost use Rattle.std.specs.Prelude.{◌≡◌, option_map};
ghost use Rattle.aatry_claims.specs.Sentences.{mode_field, mode_note, mode_word, mode_words};
ghost use Rattle.aatry_policy.specs.SeenProfiles.{seen_part};
ghost use Rattle.aatry_report.specs.SeenFields.{seen_field};

use aa_profile_data::Mode;
use aatry_policy::Part;
use aatry_report::Field;

// The words on a mode, where it isn't enforce mode.
fn mode_words(mode: Option<Mode>) -> &'static str
    ensures { result.now ≡ mode_words mode }
{
    match mode {
        Some(Mode::Enforce) => "",
        Some(Mode::Complain) => "; it is in complain mode, and asked as in enforce mode",
        Some(Mode::Unconfined) => "; it is in mode unconfined, and none of its rules is asked",
        None => "; it is disabled, and none of its rules is asked",
    }
}

/// The words on the mode of a part, if there is one that isn't in enforce mode.
pub fn mode_note(part: Option<&Part<'_>>) -> &'static str
    ensures { result.now ≡ mode_note (option_map (λ part. seen_part part.now) part.entry) }
{
    match part {
        None => "",
        Some(part) => mode_words(part.section.mode),
    }
}

// The mode in a word, or `disabled`.
fn mode_word(mode: Option<Mode>) -> &'static str
    ensures { result.now ≡ mode_word mode }
{
    match mode {
        Some(Mode::Enforce) => "enforce",
        Some(Mode::Complain) => "complain",
        Some(Mode::Unconfined) => "unconfined",
        None => "disabled",
    }
}

/// The mode of a part, if there is one, in its record.
pub fn mode_field<'x>(part: Option<&Part<'_>>) -> Field<'x>
    ensures { seen_field result ≡ mode_field (option_map (λ part. seen_part part.now) part.entry) }
{
    match part {
        None => Field::Words(""),
        Some(part) => Field::MemberWord("mode", mode_word(part.section.mode)),
    }
}
