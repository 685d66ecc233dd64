//! A policy set, made by files one after the other.

ghost use Rattle.std.specs.Prelude.{◌≡◌, ◌++◌, IfErr, IfOk, OnErr, OnOk, false, is_err, map, string_bytes, true};
ghost use Rattle.aa_set_commands.specs.declared.refusal.RefusalKind.TheVariants.{Memory};
ghost use Rattle.aa_set_manager.specs.Manager.{AreOfFile, added, new_manager_in};
ghost use Rattle.aatry_policy.specs.Origins.{file_origins, origins_if, origins_of};
ghost use Rattle.aatry_folder.specs.Loadings.{file_names, seen_top};
ghost use Rattle.aatry_policy.specs.Policies.{loaded, made_or, outcomes, refusal_in, refusal_of, switch, switched, switched_if, with_file};
ghost use Rattle.aatry_policy.specs.Profiles.{file_if_taken, read_profiles};

use crate::origins::{Origin, origins_of};
use aa_bytes::Sequence;
use aa_profile::{FileProfiles, read_file_in};
use aa_profile_data::Profile;
use aa_profile_parsing::{Language, ProfileRefusal};
use aa_set_commands::{Refusal, RefusalKind};
use aa_set_manager::Manager;
use aa_text_files::Files;
use aatry_folder::{Loading, TopFile};
use std::alloc::{AllocError, Global};

/// The policy set of some files, and which of them were refused.
#[derive(Drop)]
pub struct Policy {
    /// The policy set of the files that were taken, and its history: each file is one change, followed by one for each profile of it that is put
    /// into complain mode or disabled.
    pub manager: Manager,
    /// For each file, in their order, why it was refused; `None` where it was taken.
    pub outcomes: Vec<Option<Refusal>>,
    /// Where each profile of the policy set was read, in its order.
    pub origins: Vec<Origin>,
}

// Appends all of some origins.
fn push_all(own: Vec<Origin>, origins: &mut Vec<Origin>) -> Result<(), AllocError>
    ensures { OnOk result (origins.new.items ≡ origins.old.items ++ own.items) }
{
    for origin in own {
        origins.push(origin)?;
    }
    Ok(())
}

// The names of some profiles.
fn names_of(alloc: Global, profiles: &[Profile]) -> Result<Vec<Sequence<u8>>, AllocError>
    ensures { IfOk result (λ names. names.items ≡ map (λ profile. profile.name) profiles.now) }
{
    let mut names = Vec::with_capacity(alloc, profiles.len())?;
    for profile in profiles {
        names.push(Sequence::from_slice(alloc, profile.name.as_slice())?)?;
    }
    Ok(names)
}

// The outcome of a change that is refused for want of memory alone; one that is refused otherwise leaves everything as it was.
fn unless_memory(made: Result<(), Refusal>) -> Result<(), AllocError>
    ensures ok { OnOk result (IfErr made (λ refusal. ¬ (refusal.refusal ≡ Memory))) }
    ensures memory { OnErr result ((is_err made ≡ true) × IfErr made (λ refusal. refusal.refusal ≡ Memory)) }
{
    match made {
        Err(refusal) if refusal.refusal == RefusalKind::Memory => Err(AllocError),
        _ => Ok(()),
    }
}

// Makes the change of a profile that is in force, as its file is loaded.
fn switch(manager: &mut Manager, loading: Loading, name: &[u8]) -> Result<(), AllocError>
    ensures { OnOk result (manager.new ≡ made_or manager.old (switch loading manager.old name.now)) }
{
    match loading {
        Loading::ByFlags => Ok(()),
        Loading::ForceComplain => unless_memory(manager.complain(name)),
        Loading::Disable => unless_memory(manager.disable(name)),
    }
}

// Makes the change of each of some profiles, by their names, as their file is loaded.
fn switch_each(
    manager: &mut Manager,
    loading: Loading,
    names: &[Sequence<u8>],
) -> Result<(), AllocError>
    ensures { OnOk result (manager.new ≡ switched loading manager.old names.now) }
{
    let mut rest = names;
    while let [name, behind @ ..] = rest {
        switch(manager, loading, name.as_slice())?;
        rest = behind;
    }
    Ok(())
}

// Makes the change of each profile of a file that was added, as the file is loaded, and appends where they were read to `origins`.
fn settle(
    manager: &mut Manager,
    loading: Loading,
    names: &[Sequence<u8>],
    own: Vec<Origin>,
    origins: &mut Vec<Origin>,
) -> Result<(), AllocError>
    ensures set { OnOk result (manager.new ≡ switched loading manager.old names.now) }
    ensures origins { OnOk result (origins.new.items ≡ origins.old.items ++ own.items) }
{
    switch_each(manager, loading, names)?;
    push_all(own, origins)
}

// Adds profiles that were read of a file, loaded as the file is to be; or leaves everything as it was where they are refused, and returns why they
// were.
fn add_read(
    alloc: Global,
    manager: &mut Manager,
    file: &TopFile,
    read: FileProfiles,
    origins: &mut Vec<Origin>,
) -> Result<Option<Refusal>, AllocError>
    requires { AreOfFile read.profiles.items }
    ensures set { IfOk result (λ _. manager.new
        ≡ switched_if file.now.loading (map (λ profile. profile.name) read.profiles.items) manager.old (added manager.old read.profiles.items)) }
    ensures outcome { IfOk result (λ outcome. outcome ≡ refusal_of (added manager.old read.profiles.items)) }
    ensures origins { IfOk result (λ outcome. origins.new.items ≡ origins.old.items
        ++ origins_if (file_origins (string_bytes file.now.name) read.profiles.items read.places.items) outcome) }
{
    let FileProfiles { profiles, places } = read;
    let names = names_of(alloc, &profiles)?;
    let own = origins_of(alloc, file.name.as_bytes(), &profiles, places)?;
    match manager.add_read(profiles) {
        Ok(()) => {
            settle(manager, file.loading, &names, own, origins)?;
            Ok(None)
        }
        Err(refusal) => {
            if refusal.refusal == RefusalKind::Memory {
                return Err(AllocError);
            }
            Ok(Some(refusal))
        }
    }
}

// Adds the profiles of a file, read by the language of the policy set and loaded as the file is to be; or leaves everything as it was where the file
// is refused, and returns why it was.
fn add(
    alloc: Global,
    language: Language,
    manager: &mut Manager,
    files: &Files,
    file: &TopFile,
    origins: &mut Vec<Origin>,
) -> Result<Option<Refusal>, AllocError>
    requires { manager.old.settings.language ≡ language }
    ensures set { IfOk result (λ _. manager.new ≡ with_file files.now manager.old (seen_top file.now)) }
    ensures outcome { IfOk result (λ outcome. outcome ≡ refusal_in files.now manager.old (string_bytes file.now.name)) }
    ensures origins { IfOk result (λ outcome.
        origins.new.items ≡ origins.old.items ++ origins_of (file_if_taken language files.now (string_bytes file.now.name) outcome)) }
    ensures language { IfOk result (λ _. manager.new.settings.language ≡ language) }
{
    match read_file_in(alloc, language, files, file.name.as_bytes()) {
        Ok(read) => add_read(alloc, manager, file, read, origins),
        Err(error) => {
            if error.refusal == ProfileRefusal::Memory {
                return Err(AllocError);
            }
            Ok(Some(Refusal::from(error)))
        }
    }
}

/// The policy set that files make, read by a language: they are read and added one after the other, as by `Manager::add`, and the profiles of each
/// are put into complain mode or disabled then, as by `Manager::complain` and `Manager::disable`, where the file is loaded so. A file that is
/// refused adds nothing, and those after it are added all the same. So of two files with a profile of one name the first is taken. Each file is read
/// once: the places of its profiles' parts are kept beside the policy set.
///
/// # Errors
///
/// Where memory runs out.
pub fn load(
    alloc: Global,
    language: Language,
    files: &Files,
    top: &[TopFile],
) -> Result<Policy, AllocError>
    ensures set { IfOk result (λ policy. policy.manager ≡ loaded files.now (new_manager_in language false) (map seen_top top.now)) }
    ensures outcomes { IfOk result (λ policy. policy.outcomes.items ≡ outcomes files.now (new_manager_in language false) (map seen_top top.now)) }
    ensures origins { IfOk result (λ policy. policy.origins.items
        ≡ origins_of (read_profiles language files.now (file_names (map seen_top top.now)) (outcomes files.now (new_manager_in language false) (map seen_top top.now)))) }
{
    let mut manager = Manager::new_in(alloc, language, false);
    let mut outcomes = Vec::with_capacity(alloc, top.len())?;
    let mut origins = Vec::new(alloc);
    let mut rest = top;
    while let [file, behind @ ..] = rest {
        let outcome = add(alloc, language, &mut manager, files, file, &mut origins)?;
        outcomes.push(outcome)?;
        rest = behind;
    }
    Ok(Policy {
        manager,
        outcomes,
        origins,
    })
}
