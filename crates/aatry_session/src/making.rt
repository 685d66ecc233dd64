//! Changes made, each file read once: the machine's reply, and where the profiles were read that it loaded.

ghost use Rattle.std.specs.Prelude.{◌≡◌, Bool, [], Ok, Some, IfErr, IfOk, MatchResult, OnErr, OnOk};
ghost use Rattle.aa_profile.specs.FilePlaces.{file_places_in};
ghost use Rattle.aa_profile.specs.FileReading.{file_profiles_in};
ghost use Rattle.aa_profile.specs.Refusals.{IsRefusalOf as IsReadingRefusal};
ghost use Rattle.aa_set_manager.specs.Outcomes.{command_in, line_outcome, obeyed_flagged};
ghost use Rattle.aa_set_manager.specs.Manager.{made};
ghost use Rattle.aa_set_manager.specs.declared.reply.Reply.TheVariants.{Done, Refused};
ghost use Rattle.aa_set_commands.specs.Command.{Add, Make, Replace, seen_change};
ghost use Rattle.aa_set_commands.specs.Refusal.{IsRefusalOf};
ghost use Rattle.aatry_session_told.specs.Commands.{change_in};
ghost use Rattle.aatry_session.specs.Origins.{change_origins, origins_at};
ghost use Rattle.aatry_session.specs.Turns.{file_added};

use crate::origins::Origins;
use aa_profile::{FileProfiles, ProfileError, read_file_in};
use aa_set_commands::{LONGEST_LINE, PolicyChange, Refusal, RefusalKind, plain};
use aa_set_manager::{Manager, Reply, reply_to};
use aa_text_files::Files;
use aatry_policy::origins_of;
use std::alloc::Global;

/// The reply to a change, and where the profiles were read that it loaded.
#[derive(Drop)]
pub struct Made {
    /// The machine's reply.
    pub reply: Reply,
    /// Where the profiles were read, where the change was accepted; meaningless where it was refused.
    pub origins: Origins,
}

// Reads a file by the language by which a manager reads the files that it loads.
fn read(
    alloc: Global,
    files: &Files,
    manager: &Manager,
    name: &[u8],
) -> Result<FileProfiles, ProfileError>
    ensures ok { IfOk result (λ read. file_profiles_in manager.now.settings.language files.now name.now ≡ Ok read.profiles.items) }
    ensures places { IfOk result (λ read. file_places_in manager.now.settings.language files.now name.now ≡ Some read.places.items) }
    ensures refused { IsReadingRefusal (file_profiles_in manager.now.settings.language files.now name.now) result }
{
    read_file_in(alloc, manager.language(), files, name)
}

// Adds the profiles of a file, like `Manager::add`, and returns where they were read.
fn add_file(
    alloc: Global,
    files: &Files,
    manager: &mut Manager,
    name: &[u8],
) -> Result<Origins, Refusal>
    ensures ok { OnOk result (made files.now manager.old (Add name.now) ≡ Ok manager.new) }
    ensures refused { IfErr result (IsRefusalOf (made files.now manager.old (Add name.now))) }
    ensures unchanged { OnErr result (manager.new ≡ manager.old) }
    ensures origins { IfOk result (λ origins. origins ≡ origins_at manager.old.settings.language files.now name.now) }
{
    let FileProfiles { profiles, places } = read(alloc, files, manager, name)?;
    let own = origins_of(alloc, name, &profiles, places)?;
    manager.add_read(profiles)?;
    Ok(Origins::of(own))
}

// Puts the profiles of a file in place of those of their names, like `Manager::replace`, and returns where they were read.
fn replace_file(
    alloc: Global,
    files: &Files,
    manager: &mut Manager,
    name: &[u8],
) -> Result<Origins, Refusal>
    ensures ok { OnOk result (made files.now manager.old (Replace name.now) ≡ Ok manager.new) }
    ensures refused { IfErr result (IsRefusalOf (made files.now manager.old (Replace name.now))) }
    ensures unchanged { OnErr result (manager.new ≡ manager.old) }
    ensures origins { IfOk result (λ origins. origins ≡ origins_at manager.old.settings.language files.now name.now) }
{
    let FileProfiles { profiles, places } = read(alloc, files, manager, name)?;
    let own = origins_of(alloc, name, &profiles, places)?;
    manager.replace_read(profiles)?;
    Ok(Origins::of(own))
}

// The reply to a change that loads the profiles of a file, by its outcome.
fn answered(alloc: Global, outcome: Result<Origins, Refusal>) -> Made
    ensures reply { MatchResult outcome (λ _. result.reply ≡ Done) (λ refusal. result.reply ≡ Refused refusal) }
    ensures origins { IfOk outcome (λ own. result.origins ≡ own) }
{
    match outcome {
        Ok(origins) => Made {
            reply: Reply::Done,
            origins,
        },
        Err(refusal) => refused(alloc, refusal),
    }
}

// The reply to a change that is refused.
fn refused(alloc: Global, refusal: Refusal) -> Made
    ensures { result.reply ≡ Refused refusal }
{
    Made {
        reply: Reply::Refused(refusal),
        origins: Origins::of(Vec::new(alloc)),
    }
}

/// Adds the profiles of a file.
pub fn add(alloc: Global, files: &Files, manager: &mut Manager, name: &[u8]) -> Made
    ensures reply { (flag : Bool) × (record { reply = result.reply; managed = manager.new } ≡ file_added files.now manager.old name.now flag) }
    ensures origins { result.reply ≡ Done → result.origins ≡ origins_at manager.old.settings.language files.now name.now }
{
    answered(alloc, add_file(alloc, files, manager, name))
}

// Puts the profiles of a file in place of those of their names.
fn replace(alloc: Global, files: &Files, manager: &mut Manager, name: &[u8]) -> Made
    ensures reply { (flag : Bool) × (record { reply = result.reply; managed = manager.new }
        ≡ obeyed_flagged files.now manager.old flag (Make (Replace name.now))) }
    ensures origins { result.reply ≡ Done → result.origins ≡ origins_at manager.old.settings.language files.now name.now }
{
    answered(alloc, replace_file(alloc, files, manager, name))
}

// Has the machine obey a line that makes a change which loads no profiles.
fn by_line(alloc: Global, files: &Files, manager: &mut Manager, line: &[u8]) -> Made
    ensures reply { (flag : Bool) × (record { reply = result.reply; managed = manager.new } ≡ line_outcome files.now manager.old line.now flag) }
    ensures origins { result.origins ≡ [] }
{
    Made {
        reply: reply_to(files, manager, line),
        origins: Origins::of(Vec::new(alloc)),
    }
}

/// Makes the change of a line, like the machine does for the line. A file whose profiles it loads is read once.
pub fn make(
    alloc: Global,
    files: &Files,
    manager: &mut Manager,
    change: PolicyChange<'_>,
    line: &[u8],
) -> Made
    requires { change_in (command_in line.now) ≡ Some (seen_change change) }
    ensures reply { (flag : Bool) × (record { reply = result.reply; managed = manager.new } ≡ line_outcome files.now manager.old line.now flag) }
    ensures origins { result.reply ≡ Done → result.origins ≡ change_origins manager.old.settings.language files.now (seen_change change.entry) }
{
    if line.len() > LONGEST_LINE {
        return refused(alloc, plain(RefusalKind::LineTooLong));
    }
    match change {
        PolicyChange::Add(file) => add(alloc, files, manager, file),
        PolicyChange::Replace(file) => replace(alloc, files, manager, file),
        PolicyChange::Remove(_)
        | PolicyChange::Enforce(_)
        | PolicyChange::Complain(_)
        | PolicyChange::Disable(_) => by_line(alloc, files, manager, line),
    }
}
