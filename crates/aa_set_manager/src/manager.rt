//! The manager: a policy set with its history.

ghost use Rattle.std.specs.Prelude.{◌≡◌, ◌≤◌, Ok, Err, IfOk, IfErr, OnOk, OnErr, false, length, true, sum};
ghost use Rattle.aa_history.specs.SeenMarks.{seen_marks};
ghost use Rattle.aa_set_answers.specs.Answers.{answered, asks_absent, reply_lines, shown, shows_absent};
ghost use Rattle.aa_set_manager.specs.Changes.{is_disabled, is_loaded};
ghost use Rattle.aa_set_commands.specs.Command.{Add, Remove, Replace};
ghost use Rattle.aa_set_commands.specs.Question.{IsWellFormed, seen_question};
ghost use Rattle.aa_set_commands.specs.Refusal.{IsRefusalOf, plain};
ghost use Rattle.aa_set_commands.specs.declared.refusal.RefusalKind.TheVariants.{Memory};
ghost use Rattle.aa_set_answers.specs.List.{list_lines};
ghost use Rattle.aa_set_manager.specs.Manager.{is_mark_name};
ghost use Rattle.aa_set_manager.specs.code.Making.{Makes};
ghost use Rattle.aa_set_parts.specs.Remembered.{most_remembered};
ghost use Rattle.aa_profile_data.specs.declared.profile.Mode.TheVariants.{Complain, Enforce};

use crate::changes::{adding, disabling, removing, replacing, switching};
use crate::laws::what_changes_keep;
use crate::policy::PolicySet;
use crate::settings::Settings;
use aa_bytes::Sequence;
use aa_decide::{Asker, Entry, Request};
use aa_history::{
    Journal, Mark, what_machines_keep, what_marked_sets_stand_for, what_sets_stand_for,
};
use aa_profile::{how_profiles_are_named, read_file_in, which_rules_agree};
use aa_profile_data::{Mode, Profile};
use aa_profile_parsing::Language;
use aa_set_answers::{
    Answered, access_answer, exec_answer, find_asker, lines_of, list_lines, shown_lines,
};
use aa_set_commands::{Question, Refusal, RefusalKind, plain};
use aa_set_parts::{Exchange, Indexing, Remembering, Slots, fingerprint};
use aa_text_files::Files;
use std::alloc::Global;
use std::marker::Model;

// How many bytes the name of a mark has at most.
const LONGEST_MARK: usize = 255;

/// A policy set, the policy sets before and after it in its history, and the marks of such sets.
///
/// Contracts see the machine that keeps whole policy sets: the set now, the earlier ones and the later ones, and the marks; and how many parts each
/// change has. What is stored are the slots of the set now, and of each change the parts that it exchanges with them.
pub struct Manager {
    alloc: Global,
    settings: Settings,
    journal: Journal<Slots, Exchange>,
}

impl Drop for Manager {
    // Proved here, once for all crates that own one.
    fn drop(self) {
        let Manager {
            alloc: _,
            settings: _,
            journal,
        } = self;
        drop(journal);
    }
}

impl Model for Manager {
    ghost use Rattle.aa_decide_ready.specs.Slots.{filled};
    ghost use Rattle.aa_history.specs.Machine.{all_sets, mapped};
    ghost use Rattle.aa_set_manager.specs.Manager.{AreDistinct, Managed, managed_by};

    ghost Value = { Managed };

    ghost view = { λ m. managed_by m.settings (record { machine = mapped filled m.journal.machine; sizes = m.journal.sizes }) };

    ghost invariant = { λ m. AreDistinct (all_sets (mapped filled m.journal.machine)) };
}

impl Manager {
    ghost use Rattle.aa_set_manager.specs.Manager.{AreOfFile, added, back_at, disabled, in_mode, made, marking};
    ghost use Rattle.aa_set_manager.specs.Manager.{new_manager, new_manager_in, redone, replaced, undone};

    /// A manager of the empty policy set, to which no change was made yet, with files read by the language of AppArmor 3: `new_in` with that. It
    /// takes no memory.
    pub fn new(alloc: Global, force_complain: bool) -> Manager
        ensures { result ≡ new_manager force_complain }
    {
        Manager::new_in(alloc, Language::Three, force_complain)
    }

    /// A manager of the empty policy set, to which no change was made yet, with files read by this language. With `force_complain` (the option `-C`)
    /// each profile is loaded in complain mode, and so are its children and hats, whatever their flags. It takes no memory.
    pub fn new_in(alloc: Global, language: Language, force_complain: bool) -> Manager
        ensures { result ≡ new_manager_in language force_complain }
    {
        Manager {
            alloc,
            settings: Settings {
                language,
                force_complain,
            },
            journal: Journal::new(alloc, Slots::new(alloc)),
        }
    }

    /// The policy set now. It takes no memory.
    pub fn policy_set(&self) -> PolicySet<'_>
        ensures { result ≡ self.now.machine.now }
    {
        PolicySet::of(self.journal.state())
    }

    /// The language by which files are read. It takes no memory.
    pub fn language(&self) -> Language
        ensures { result ≡ self.now.settings.language }
    {
        self.settings.language
    }

    /// How many changes can be undone. It takes no memory.
    pub fn depth(&self) -> usize
        ensures { result ≡ length self.now.machine.earlier }
    {
        self.journal.depth()
    }

    /// The marks, in the order in which their names were first given. It takes no memory.
    pub fn marks(&self) -> &[Mark]
        ensures { seen_marks result.now ≡ self.now.machine.marks }
    {
        self.journal.marks()
    }

    /// How many parts all changes have together, those that can be undone and those that can be redone: one for a change of mode, and for `add`,
    /// `replace` and `remove` the number of the file's profiles. It takes no memory.
    pub fn kept(&self) -> u128
        ensures { result ≡ sum self.now.sizes }
    {
        self.journal.kept()
    }

    /// Reads a file, and adds its profiles at the end of the policy set, in the file's order: all of them or none. Each is in force in the modes of
    /// its own flags, or with `force_complain` in complain mode. With `Ok` that is one change, and what was undone can't be redone any more.
    ///
    /// # Errors
    ///
    /// Those of reading the file come first, each phase over the whole file before the next (docs/policy.md):
    /// - `NoFile`, without a place, where no file has the name; else the first fault of the file's text or of its includes' (`ZeroByte`,
    ///   `OpenQuote`, `OpenOther`, `NoFile`, `IncludeDepth`, `TextTooBig`), at its byte, its token or its include;
    /// - the first fault of its grammar, from the left: `BadToken` at the first token that the grammar doesn't take at its place, and without a
    ///   place where the tokens run out outside of a block; `OpenBlock` at the innermost brace that is open where they run out in one; `BadFlag`,
    ///   `BadAccess`, `TwoExec`, `ExecQualifier` and `WriteAppend` at the token that holds the flag or the access; `TargetWithoutExec` at `->`;
    ///   `BadCapability` and `BadNetwork` at the word; `TwiceNamed` and `BadName` at the name; `NestedChild` at the word or name that begins a child
    ///   within a child; `LateAssignment` at an assignment after a profile; `NoProfile`, without a place, where the file has none;
    /// - `Redefined` and `AppendUndefined` at the assignment, then `Undefined` at the token that names the variable, then `Cycle` at the
    ///   variable's first assignment;
    /// - `TooManyRules` at the pattern with which the file has more than 16,384, each expansion counted;
    /// - the refusal of the first expansion that is no pattern (`NotAbsolute` to `TooDeep`), at its pattern;
    /// - `ExecConflict` at the first pattern that makes a rule which conflicts with one before it in its profile, child or hat.
    ///
    /// Then `Exists`, without a place, where a profile of one of their names is loaded. `Memory`, without a place, may come anywhere: memory ran
    /// out. After each of these the policy set and its history are unchanged.
    pub fn add(&mut self, files: &Files, name: &[u8]) -> Result<(), Refusal>
        ensures ok { OnOk result (made files.now self.old (Add name.now) ≡ Ok self.new) }
        ensures refused { IfErr result (IsRefusalOf (made files.now self.old (Add name.now))) }
        ensures unchanged { OnErr result (self.new ≡ self.old) }
    {
        let read = read_file_in(self.alloc, self.settings.language, files, name)?;
        self.add_read(read.profiles)
    }

    /// Adds profiles that were read from a file, as `add` of that file does. It is for callers that need the rest of what `aa_profile::read_file_in`
    /// returns, so that the file is read once for both. The caller makes sure that they are those of one file.
    ///
    /// # Errors
    ///
    /// `Exists`, without a place, where a profile of one of their names is loaded, and `Memory` where memory ran out. After each the policy set and
    /// its history are unchanged.
    pub fn add_read(&mut self, profiles: Vec<Profile>) -> Result<(), Refusal>
        requires { AreOfFile profiles.items }
        ensures ok { OnOk result (added self.old profiles.items ≡ Ok self.new) }
        ensures refused { IfErr result (IsRefusalOf (added self.old profiles.items)) }
        ensures unchanged { OnErr result (self.new ≡ self.old) }
    {
        how_profiles_are_named();
        which_rules_agree();
        let slots = self.journal.state();
        let exchange = adding(self.alloc, slots, self.settings.force_complain, profiles);
        what_changes_keep();
        make(&mut self.journal, exchange)
    }

    /// Reads a file, and replaces each profile by the one of the file that has its name; where there is none, the file's profile is added at the end
    /// of the policy set, in the file's order: all of them or none. Each is in force in the modes of its own flags, or with `force_complain` in
    /// complain mode, whatever the mode of the one before. With `Ok` that is one change, and what was undone can't be redone any more.
    ///
    /// # Errors
    ///
    /// Those of reading the file come first, as for `add`. Then `Disabled`, without a place, where the profile of one of their names is disabled.
    /// `Memory`, without a place, may come anywhere: memory ran out. After each of these the policy set and its history are unchanged.
    pub fn replace(&mut self, files: &Files, name: &[u8]) -> Result<(), Refusal>
        ensures ok { OnOk result (made files.now self.old (Replace name.now) ≡ Ok self.new) }
        ensures refused { IfErr result (IsRefusalOf (made files.now self.old (Replace name.now))) }
        ensures unchanged { OnErr result (self.new ≡ self.old) }
    {
        let read = read_file_in(self.alloc, self.settings.language, files, name)?;
        self.replace_read(read.profiles)
    }

    /// Replaces profiles by those that were read from a file, as `replace` of that file does. It is for callers that need the rest of what
    /// `aa_profile::read_file_in` returns, so that the file is read once for both. The caller makes sure that they are those of one file.
    ///
    /// # Errors
    ///
    /// `Disabled`, without a place, where the profile of one of their names is disabled, and `Memory` where memory ran out. After each the policy
    /// set and its history are unchanged.
    pub fn replace_read(&mut self, profiles: Vec<Profile>) -> Result<(), Refusal>
        requires { AreOfFile profiles.items }
        ensures ok { OnOk result (replaced self.old profiles.items ≡ Ok self.new) }
        ensures refused { IfErr result (IsRefusalOf (replaced self.old profiles.items)) }
        ensures unchanged { OnErr result (self.new ≡ self.old) }
    {
        how_profiles_are_named();
        which_rules_agree();
        let slots = self.journal.state();
        let exchange = replacing(self.alloc, slots, self.settings.force_complain, profiles);
        what_changes_keep();
        make(&mut self.journal, exchange)
    }

    /// Reads a file, and removes the profiles that have the names of the file's profiles, in force or disabled: all of them or none. With `Ok` that
    /// is one change, and what was undone can't be redone any more.
    ///
    /// # Errors
    ///
    /// Those of reading the file come first, as for `add`. Then `Absent`, without a place, where no profile of one of their names is loaded.
    /// `Memory`, without a place, may come anywhere: memory ran out. After each of these the policy set and its history are unchanged.
    pub fn remove(&mut self, files: &Files, name: &[u8]) -> Result<(), Refusal>
        ensures ok { OnOk result (made files.now self.old (Remove name.now) ≡ Ok self.new) }
        ensures refused { IfErr result (IsRefusalOf (made files.now self.old (Remove name.now))) }
        ensures unchanged { OnErr result (self.new ≡ self.old) }
    {
        let read = read_file_in(self.alloc, self.settings.language, files, name)?;
        let exchange = removing(self.alloc, self.journal.state(), read.profiles.as_slice());
        what_changes_keep();
        make(&mut self.journal, exchange)
    }

    /// Sets the profile of a name to enforce mode, with all its children and hats; a disabled one comes into force. With `Ok` that is one change,
    /// also where the policy set stays equal, and what was undone can't be redone any more.
    ///
    /// # Errors
    ///
    /// `Absent` where no profile has the name, which is found without allocating, and `Memory` where memory ran out. After each the policy set and
    /// its history are unchanged.
    pub fn enforce(&mut self, name: &[u8]) -> Result<(), Refusal>
        ensures ok { OnOk result (in_mode Enforce self.old name.now ≡ Ok self.new) }
        ensures refused { IfErr result (IsRefusalOf (in_mode Enforce self.old name.now)) }
        ensures unchanged { OnErr result (self.new ≡ self.old) }
        ensures memory { IfErr result (λ refusal. refusal ≡ plain Memory → is_loaded name.now self.old.machine.now ≡ true) }
    {
        let exchange = switching(self.alloc, self.journal.state(), Mode::Enforce, name);
        what_changes_keep();
        make(&mut self.journal, exchange)
    }

    /// Sets the profile of a name to complain mode, with all its children and hats; a disabled one comes into force. With `Ok` that is one change,
    /// also where the policy set stays equal, and what was undone can't be redone any more.
    ///
    /// # Errors
    ///
    /// As for `enforce`.
    pub fn complain(&mut self, name: &[u8]) -> Result<(), Refusal>
        ensures ok { OnOk result (in_mode Complain self.old name.now ≡ Ok self.new) }
        ensures refused { IfErr result (IsRefusalOf (in_mode Complain self.old name.now)) }
        ensures unchanged { OnErr result (self.new ≡ self.old) }
        ensures memory { IfErr result (λ refusal. refusal ≡ plain Memory → is_loaded name.now self.old.machine.now ≡ true) }
    {
        let exchange = switching(self.alloc, self.journal.state(), Mode::Complain, name);
        what_changes_keep();
        make(&mut self.journal, exchange)
    }

    /// Disables the profile of a name, with its children and hats: it confines nothing, no program is started under it, and it keeps its place. With
    /// `Ok` that is one change, and what was undone can't be redone any more.
    ///
    /// # Errors
    ///
    /// `Absent` where no profile has the name, and `Disabled` where it is disabled already, which are found without allocating; and `Memory` where
    /// memory ran out. After each the policy set and its history are unchanged.
    pub fn disable(&mut self, name: &[u8]) -> Result<(), Refusal>
        ensures ok { OnOk result (disabled self.old name.now ≡ Ok self.new) }
        ensures refused { IfErr result (IsRefusalOf (disabled self.old name.now)) }
        ensures unchanged { OnErr result (self.new ≡ self.old) }
        ensures loaded { IfErr result (λ refusal. refusal ≡ plain Memory → is_loaded name.now self.old.machine.now ≡ true) }
        ensures in_force { IfErr result (λ refusal. refusal ≡ plain Memory → is_disabled name.now self.old.machine.now ≡ false) }
    {
        let exchange = disabling(self.alloc, self.journal.state(), name);
        what_changes_keep();
        make(&mut self.journal, exchange)
    }

    /// Undoes the last `n` changes: the policy set is the one from before them, with each entry in its place. It takes no memory.
    ///
    /// # Errors
    ///
    /// `NothingToUndo` where fewer than `n` changes can be undone. Nothing is undone then.
    pub fn undo(&mut self, n: usize) -> Result<(), Refusal>
        ensures ok { OnOk result (undone n self.old ≡ Ok self.new) }
        ensures refused { IfErr result (λ refusal. undone n self.old ≡ Err refusal) }
        ensures unchanged { OnErr result (self.new ≡ self.old) }
    {
        what_machines_keep::<Slots>();
        what_sets_stand_for::<Slots, Sequence<Entry>>();
        match self.journal.undo(n) {
            Ok(()) => Ok(()),
            Err(_) => Err(plain(RefusalKind::NothingToUndo)),
        }
    }

    /// Redoes the last `n` changes that were undone: the policy set is the one from after them, with each entry in its place. It takes no memory.
    ///
    /// # Errors
    ///
    /// `NothingToRedo` where fewer than `n` changes can be redone. Nothing is redone then.
    pub fn redo(&mut self, n: usize) -> Result<(), Refusal>
        ensures ok { OnOk result (redone n self.old ≡ Ok self.new) }
        ensures refused { IfErr result (λ refusal. redone n self.old ≡ Err refusal) }
        ensures unchanged { OnErr result (self.new ≡ self.old) }
    {
        what_machines_keep::<Slots>();
        what_sets_stand_for::<Slots, Sequence<Entry>>();
        match self.journal.redo(n) {
            Ok(()) => Ok(()),
            Err(_) => Err(plain(RefusalKind::NothingToRedo)),
        }
    }

    /// Marks the policy set now by a name of 1 to 255 bytes; the name then no longer marks another. This is no change: it can't be undone, and drops
    /// nothing that could be redone. A mark lasts until a change is accepted with fewer changes made than there were at the mark, after which the
    /// marked set can't be reached any more.
    ///
    /// # Errors
    ///
    /// `BadRequest` where the name is empty or longer, which is found without allocating, and `Memory` where memory ran out. After each the policy
    /// set, its history and the marks are unchanged.
    pub fn mark(&mut self, name: &[u8]) -> Result<(), Refusal>
        ensures ok { OnOk result (marking name.now self.old ≡ Ok self.new) }
        ensures refused { IfErr result (IsRefusalOf (marking name.now self.old)) }
        ensures unchanged { OnErr result (self.new ≡ self.old) }
        ensures memory { IfErr result (λ refusal. refusal ≡ plain Memory → is_mark_name name.now ≡ true) }
    {
        if !is_mark_name(name) {
            return Err(plain(RefusalKind::BadRequest));
        }
        what_marked_sets_stand_for::<Slots, Sequence<Entry>>();
        let name = Vec::from_slice(self.alloc, name)?;
        match self.journal.mark(name) {
            Ok(()) => Ok(()),
            Err(_) => Err(plain(RefusalKind::Memory)),
        }
    }

    /// Goes to the policy set that is marked by a name, by undoing or redoing the changes between, with each entry in its place. No change is
    /// dropped, neither of those that could be undone nor of those that could be redone, and no mark. It takes no memory.
    ///
    /// # Errors
    ///
    /// `NoMark` where no policy set is marked by the name. The policy set, its history and the marks are then unchanged.
    pub fn back(&mut self, name: &[u8]) -> Result<(), Refusal>
        ensures ok { OnOk result (back_at name.now self.old ≡ Ok self.new) }
        ensures refused { IfErr result (λ refusal. back_at name.now self.old ≡ Err refusal) }
        ensures unchanged { OnErr result (self.new ≡ self.old) }
    {
        what_marked_sets_stand_for::<Slots, Sequence<Entry>>();
        what_sets_stand_for::<Slots, Sequence<Entry>>();
        match self.journal.back(name) {
            Ok(()) => Ok(()),
            Err(_) => Err(plain(RefusalKind::NoMark)),
        }
    }

    /// Remembers the states that the asker's rules reach along a question's path, so that the question is answered quicker from now on, and so are
    /// others as far as they reach the same states together; and makes indices of names and attachments. No answer changes. What is remembered takes
    /// at most 48 MiB: where it would be more, what is remembered for the one is forgotten for whom nothing was added for the longest time, and all of
    /// it is with each change but those of modes. Where memory runs out no more is remembered.
    pub fn remember(&mut self, question: &Question<'_>)
        ensures { self.new ≡ self.old }
    {
        match question {
            Question::File { who, path, .. } => {
                self.index(false);
                self.remember_path(who, path);
            }
            Question::Exec { who, path, .. } => {
                self.index(true);
                self.remember_path(who, path);
            }
            Question::Cap { .. } | Question::Net { .. } => self.index(false),
        }
    }

    /// How many bytes are remembered (`remember`), for all profiles, children and hats together. It takes no memory; `O(n)` for n of these.
    pub fn remembered_bytes(&self) -> usize
        ensures { result ≤ most_remembered }
    {
        self.journal.state().remembered_bytes()
    }

    /// Makes an index of the profiles' names, if it is called for more than the first few times since profiles were added, replaced or removed. No
    /// answer changes. `remember` does it for a question.
    pub fn index_names(&mut self)
        ensures { self.new ≡ self.old }
    {
        self.index(false);
    }

    // Makes an index of the profiles' names, and one of their attachments if these are looked up.
    fn index(&mut self, attachments: bool)
        ensures { self.new ≡ self.old }
    {
        self.journal.tend(&Indexing { attachments });
    }

    // Remembers the states that the rules of an asker, by full name, reach along a path.
    fn remember_path(&mut self, who: &[u8], path: &[u8])
        ensures { self.new ≡ self.old }
    {
        let fingerprint = fingerprint(who, path);
        if self.journal.state().is_remembered(fingerprint) {
            return;
        }
        if let Some(Some(Asker { slot, child, .. })) = find_asker(&self.policy_set().slots(), who) {
            self.journal.tend(&Remembering {
                slot,
                child,
                path,
                fingerprint,
            });
        }
    }

    /// The lines of the reply to `list`: how many profiles, children and hats are loaded, and a line for each, with its full name and its state
    /// (docs/commands.md, "What is loaded").
    ///
    /// # Errors
    ///
    /// `Memory` where memory ran out.
    pub fn list(&self) -> Result<Vec<u8>, Refusal>
        ensures answered { IfOk result (λ lines. lines.items ≡ list_lines self.now.machine.now) }
        ensures memory { IfErr result (λ refusal. refusal ≡ plain Memory) }
    {
        Ok(list_lines(self.alloc, self.policy_set().slots().as_slice())?)
    }

    /// The lines of the reply to `show NAME`: what the profile, child or hat of this full name has (docs/commands.md, "What is loaded").
    ///
    /// # Errors
    ///
    /// `Absent` where no profile, child or hat of the full name is loaded, which is found without allocating, and `Memory` where memory ran out.
    pub fn show(&self, name: &[u8]) -> Result<Vec<u8>, Refusal>
        ensures answered { IfOk result (λ lines. shown self.now.machine.now name.now ≡ Ok lines.items) }
        ensures refused { IfErr result (IsRefusalOf (shown self.now.machine.now name.now)) }
        ensures memory { IfErr result (λ refusal. refusal ≡ plain Memory → shows_absent self.now.machine.now name.now ≡ false) }
    {
        shown_lines(self.alloc, &self.policy_set().slots(), name)
    }

    /// Answers a question, as values: the answer, its text, and the audit line, where it is logged (docs/commands.md, "Questions"). The caller makes
    /// sure that the question is well-formed, as one of `Question::read` is: it needs known letters alone, and its numbers are in the tables.
    ///
    /// # Errors
    ///
    /// `Absent` where no profile, child or hat of the full name is loaded, and `Memory` where memory ran out.
    pub fn answered(&self, question: &Question<'_>) -> Result<Answered, Refusal>
        requires { IsWellFormed question.now }
        ensures answered { IfOk result (λ told. answered self.now.machine.now (seen_question question.entry.now) ≡ Ok told) }
        ensures refused { IfErr result (IsRefusalOf (answered self.now.machine.now (seen_question question.entry.now))) }
        // That the asker is absent is found without allocating.
        ensures memory { IfErr result (λ refusal.
            refusal ≡ plain Memory → asks_absent self.now.machine.now (seen_question question.entry.now) ≡ false) }
    {
        let slots = &self.policy_set().slots();
        match question {
            Question::File {
                who,
                needs,
                owned,
                path,
            } => {
                let request = Request::File {
                    needs: *needs,
                    owned: *owned,
                    path,
                };
                access_answer(self.alloc, slots, who, &request)
            }
            Question::Exec { who, owned, path } => exec_answer(
                self.alloc, slots, who, *owned, path,
            ),
            Question::Cap { who, number } => {
                access_answer(self.alloc, slots, who, &Request::Cap(*number))
            }
            Question::Net { who, domain, kind } => {
                let request = Request::Net {
                    domain: *domain,
                    kind: *kind,
                };
                access_answer(self.alloc, slots, who, &request)
            }
        }
    }

    /// Answers a question as `answered` does, and remembers what it reached (`remember`), so that it is answered quicker the next time. The policy
    /// set and its history don't change.
    ///
    /// # Errors
    ///
    /// As for `answered`.
    pub fn answer(&mut self, question: &Question<'_>) -> Result<Answered, Refusal>
        requires { IsWellFormed question.now }
        ensures answered { IfOk result (λ told. answered self.old.machine.now (seen_question question.entry.now) ≡ Ok told) }
        ensures refused { IfErr result (IsRefusalOf (answered self.old.machine.now (seen_question question.entry.now))) }
        ensures memory { IfErr result (λ refusal.
            refusal ≡ plain Memory → asks_absent self.old.machine.now (seen_question question.entry.now) ≡ false) }
        ensures unchanged { self.new ≡ self.old }
    {
        self.remember(question);
        self.answered(question)
    }

    /// The lines of the reply to a question, each with its line feed: the text of the answer, followed by the audit line, where it is logged. The
    /// question is as for `answered`.
    ///
    /// # Errors
    ///
    /// As for `answered`.
    pub fn ask(&self, question: &Question<'_>) -> Result<Vec<u8>, Refusal>
        requires { IsWellFormed question.now }
        ensures answered { IfOk result (λ lines. reply_lines self.now.machine.now (seen_question question.entry.now) ≡ Ok lines.items) }
        ensures refused { IfErr result (IsRefusalOf (reply_lines self.now.machine.now (seen_question question.entry.now))) }
        // That the asker is absent is found without allocating.
        ensures memory { IfErr result (λ refusal.
            refusal ≡ plain Memory → asks_absent self.now.machine.now (seen_question question.entry.now) ≡ false) }
    {
        let told = self.answered(question)?;
        Ok(lines_of(self.alloc, &told)?)
    }
}

// Whether a mark may have a name.
fn is_mark_name(name: &[u8]) -> bool
    ensures { result ≡ is_mark_name name.now }
{
    !name.is_empty() && name.len() <= LONGEST_MARK
}

// Makes a change to the slots of a journal and records how to undo it, if the change wasn't refused.
fn make(
    journal: &mut Journal<Slots, Exchange>,
    exchange: Result<Exchange, Refusal>,
) -> Result<(), Refusal>
    ensures { Makes journal.old journal.new exchange result }
{
    match exchange {
        Err(refusal) => Err(refusal),
        Ok(exchange) => match journal.commit(exchange) {
            Ok(()) => Ok(()),
            Err(_) => Err(plain(RefusalKind::Memory)),
        },
    }
}
