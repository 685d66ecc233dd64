//! The first block of a file whose exec rules have more states than `MOST_EXEC_STATES`.

ghost use Rattle.std.specs.Prelude.{◌≡◌, None, IfOk, OnOk, map};
ghost use Rattle.std.specs.Option.{option_map};
ghost use Rattle.aa_profile.specs.States.{many_in_members, many_in_profile, many_in_profiles, refusal_of_many};
ghost use Rattle.aa_profile_grammar.specs.SeenFiles.{seen_member, seen_profile};
ghost use Rattle.aa_profile_parsing.specs.Tokens.{place_of};
ghost use Rattle.aa_profile_grammar.specs.Refusals.{IsRefusal};

use aa_profile_conflicts::has_many_states;
use aa_profile_data::{Child, Profile};
use aa_profile_grammar::{Member, Profile as WrittenProfile};
use aa_profile_parsing::{Language, ProfileError, ProfileRefusal, place_of, placed};
use aa_text_files::Place;
use std::alloc::{AllocError, Global};

// The place of the token that names the first child or hat of a block whose exec rules have too many states. `children` are those that its members
// make.
fn many_in_members(
    alloc: Global,
    members: &[Member<'_>],
    children: &[Child],
) -> Result<Option<Place>, AllocError>
    ensures { IfOk result (λ found. found ≡ option_map place_of (many_in_members (map seen_member members.now) children.now)) }
{
    let mut made = children;
    let mut rest = members;
    while let [member, behind @ ..] = rest {
        if let Member::OfChild(child) = member {
            let [first, others @ ..] = made else {
                return Ok(None);
            };
            if has_many_states(alloc, first.rules.as_slice())? {
                return Ok(Some(place_of(child.head.token)));
            }
            made = others;
        }
        rest = behind;
    }
    Ok(None)
}

// The place of the token that names the first block of a profile, its own included, whose exec rules have too many states.
fn many_in_profile(
    alloc: Global,
    written: &WrittenProfile<'_>,
    profile: &Profile,
) -> Result<Option<Place>, AllocError>
    ensures { IfOk result (λ found. found ≡ option_map place_of (many_in_profile (seen_profile written.now) profile.now)) }
{
    if has_many_states(alloc, profile.rules.as_slice())? {
        return Ok(Some(place_of(written.head.token)));
    }
    many_in_members(alloc, &written.members, profile.children.as_slice())
}

// The place of the token that names the first block of profiles whose exec rules have too many states; each written profile makes one of `profiles`.
fn many_in_profiles(
    alloc: Global,
    written: &[WrittenProfile<'_>],
    profiles: &[Profile],
) -> Result<Option<Place>, AllocError>
    ensures { IfOk result (λ found. found ≡ option_map place_of (many_in_profiles (map seen_profile written.now) profiles.now)) }
{
    let mut made = profiles;
    let mut rest = written;
    while let [profile, behind @ ..] = rest {
        let [first, others @ ..] = made else {
            return Ok(None);
        };
        if let Some(place) = many_in_profile(alloc, profile, first)? {
            return Ok(Some(place));
        }
        made = others;
        rest = behind;
    }
    Ok(None)
}

/// In language 4, refuses profiles where the exec rules of a profile, child or hat have more than 8,192 states. `profiles` are those that the
/// written ones make.
///
/// # Errors
///
/// `ManyStates` at the token that names the first block that has more; `Memory`, without a place: memory ran out.
pub fn check_states(
    alloc: Global,
    language: Language,
    written: &[WrittenProfile<'_>],
    profiles: &[Profile],
) -> Result<(), ProfileError>
    ensures ok { OnOk result (refusal_of_many language (map seen_profile written.now) profiles.now ≡ None) }
    ensures refused { IsRefusal (refusal_of_many language (map seen_profile written.now) profiles.now) result }
{
    match language {
        Language::Three => Ok(()),
        Language::Four => match many_in_profiles(alloc, written, profiles)? {
            Some(place) => Err(placed(ProfileRefusal::ManyStates, place)),
            None => Ok(()),
        },
    }
}
