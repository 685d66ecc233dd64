//! The questions that lines ask.

ghost use Rattle.std.specs.Prelude.{◌≡◌, option_map};
ghost use Rattle.aatry_log_lines.specs.LoggedQuestions.{capability_asked, file_asked, path_question, seen_logged, sockets_asked};
ghost use Rattle.aatry_log_lines.specs.Values.{seen_text};

use crate::asked::{Asked, LoggedQuestion};
use crate::values::LoggedText;
use aa_profile_data::{capability_number, domain_number, which_numbers_names_have};
use aa_set_commands::{is_path, type_number};
use aatry_words::needs_of_mask;

/// The question for the capability of a name, if there is one. It takes no memory.
pub fn capability_asked<'a>(
    who: Option<LoggedText<'a>>,
    name: Option<&[u8]>,
) -> Option<LoggedQuestion<'a>>
    ensures { option_map seen_logged result ≡ capability_asked (option_map seen_text who.entry) (option_map (λ name. name.now) name.entry) }
{
    let who = who?;
    let number = capability_number(name?)?;
    which_numbers_names_have();
    Some(LoggedQuestion::new(Asked::Cap { who, number }))
}

/// The question for sockets of a family and a type, if there are such. It takes no memory.
pub fn sockets_asked<'a>(
    who: Option<LoggedText<'a>>,
    family: Option<&[u8]>,
    sort: Option<&[u8]>,
) -> Option<LoggedQuestion<'a>>
    ensures { option_map seen_logged result
        ≡ sockets_asked (option_map seen_text who.entry) (option_map (λ family. family.now) family.entry) (option_map (λ sort. sort.now) sort.entry) }
{
    let who = who?;
    let domain = domain_number(family?)?;
    let kind = type_number(sort?)?;
    which_numbers_names_have();
    Some(LoggedQuestion::new(Asked::Net { who, domain, kind }))
}

// The question for a path by its mask, if there is one.
fn path_question<'a>(
    who: LoggedText<'a>,
    mask: &[u8],
    owned: bool,
    path: LoggedText<'a>,
) -> Option<LoggedQuestion<'a>>
    ensures { option_map seen_logged result ≡ path_question (seen_text who.entry) mask.now owned (seen_text path.entry) }
{
    if !is_path(path.as_slice()) {
        return None;
    }
    let asked = if mask == b"x".as_slice() {
        Asked::Exec { who, owned, path }
    } else {
        let needs = needs_of_mask(mask)?;
        Asked::File {
            who,
            needs,
            owned,
            path,
        }
    };
    Some(LoggedQuestion::new(asked))
}

/// The question for a file by its mask, if there is one: that of a program's start where the mask is `x`. It takes no memory.
pub fn file_asked<'a>(
    who: Option<LoggedText<'a>>,
    mask: Option<&[u8]>,
    owned: Option<bool>,
    path: Option<LoggedText<'a>>,
) -> Option<LoggedQuestion<'a>>
    ensures { option_map seen_logged result
        ≡ file_asked (option_map seen_text who.entry) (option_map (λ mask. mask.now) mask.entry) owned (option_map seen_text path.entry) }
{
    path_question(who?, mask?, owned?, path?)
}
