//! A session: a manager, and what is kept of its changes.

ghost use Rattle.std.specs.Prelude.{◌≡◌, Bool, ℕ, List, IfOk, OnErr, OnOk, option_map};
ghost use Rattle.aatry_session_told.specs.Help.{help_text};
ghost use Rattle.aatry_session.specs.Switching.{kept_switched};
ghost use Rattle.aatry_session.specs.Turns.{IsLeft, IsLeftAdding, Told, add_outcome, begun, history_begun, history_told, history_widened, origin_of};
ghost use Rattle.aatry_session.specs.Turns.{turn_outcome, unplaced};
ghost use Rattle.aatry_session.specs.SeenTurns.{IsAskable, seen_turn};

use crate::changes::{Changes, no_changes};
use crate::obeying::{obey, obey_add};
use crate::origins::{forget_all, origin_among};
use crate::switching::switch;
use aa_bytes::Sequence;
use aa_profile_parsing::Language;
use aa_set_commands::Question;
use aa_set_manager::Manager;
use aa_text_files::Files;
use aatry_folder::Loading;
use aatry_policy::Origin;
use aatry_session_told::{Saying, push_help, push_history, push_no_question, saying_in};
use std::alloc::{AllocError, Global};
use std::marker::Model;

/// What a session does for a line.
#[derive(Drop)]
pub enum Turn<'a> {
    /// Print these lines, each with its line feed, or nothing for a blank one.
    Told(Sequence<u8>),
    /// End the session.
    Quit,
    /// Read the files anew. The policy set and its history stay, until a change loads a file.
    Reload,
    /// Print what is loaded, and how the files differ from those on disk.
    Status,
    /// Let the history leave out nothing any more.
    Widen,
    /// Print the rules that decide the answer to this question.
    Why(Question<'a>),
}

/// A policy set with its history, and of each change that made it the text, and where the profiles were read that it loaded. The history begins
/// after the changes that loaded the files, from `begin_history` on: it doesn't list them, and `undo` goes back over none of them.
///
/// Contracts see the manager, these texts and these origins: those of the done changes, oldest first, and then those of the undone changes, the next
/// to redo first; and how many changes the history leaves out.
#[derive(Drop)]
pub struct Session {
    manager: Manager,
    changes: Changes,
}

impl Model for Session {
    ghost use Rattle.aatry_session.specs.SeenSessions.{seen_session};
    ghost use Rattle.aatry_session.specs.Turns.{Kept};

    ghost Value = { Kept };

    ghost view = { λ s. seen_session s.manager s.changes };
}

impl Session {
    /// A session of the empty policy set, which no change has made yet, whose files are read by a language. With `force_complain` each profile is
    /// loaded in complain mode. It takes no memory.
    pub fn new(alloc: Global, language: Language, force_complain: bool) -> Session
        ensures { result ≡ begun language force_complain }
    {
        Session {
            manager: Manager::new_in(alloc, language, force_complain),
            changes: no_changes(alloc),
        }
    }

    /// Begins the history here: from now on it leaves out the changes that are done so far. It takes no memory.
    pub fn begin_history(&mut self)
        ensures { self.new ≡ history_begun self.old }
    {
        self.changes.loaded = self.manager.depth();
    }

    /// Lets the history leave out nothing any more: `undo` may go back over all changes. It takes no memory.
    pub fn widen_history(&mut self)
        ensures { self.new ≡ history_widened self.old }
    {
        self.changes.loaded = 0;
    }

    /// The manager of the policy set.
    pub fn manager(&self) -> &Manager
        ensures { result.now ≡ self.now.managed }
    {
        &self.manager
    }

    /// Remembers the states that a question passes (`Manager::remember`), so that it is answered quicker from now on. The answers of the session
    /// don't change.
    pub fn remember(&mut self, question: &Question<'_>)
        ensures { self.new ≡ self.old }
    {
        self.manager.remember(question);
    }

    /// Where the loaded profile of a name was read, as far as that is known: by the last of the done changes that loaded a profile of the name. So
    /// `undo` brings back what was known before. It takes no memory.
    pub fn origin(&self, profile: &[u8]) -> Option<&Origin>
        ensures { option_map (λ origin. origin.now) result ≡ origin_of self.now profile.now }
    {
        origin_among(&self.changes.origins, self.manager.depth(), profile)
    }

    /// Forgets the places in the files of what the loaded profiles have, also those of undone changes: it is for when the files were read anew, and
    /// a place in them may hold something else. Of each profile the name of its file is still known. It takes no memory.
    pub fn forget_places(&mut self)
        ensures { self.new ≡ unplaced self.old }
    {
        forget_all(&mut self.changes.origins);
    }

    /// Adds the profiles of a file by its name, with the reply that the line `add NAME` would have. A line can't name each file: none names one that
    /// has a quote in its name. `files` and `base` are as in `answer`.
    ///
    /// # Errors
    ///
    /// Where memory runs out: for what is kept of the change, and the change isn't made then; or for the text of the reply, and the change is made
    /// and kept then all the same. So the policy set and its history stay in step, and the session can go on.
    pub fn add<'a>(
        &mut self,
        alloc: Global,
        files: &Files,
        base: &str,
        name: &[u8],
    ) -> Result<Turn<'a>, AllocError>
        ensures told { IfOk result (λ turn. (flag : Bool)
            × (record { answer = seen_turn turn; kept = self.new } ≡ add_outcome files.now base.now self.old name.now flag)) }
        ensures askable { IfOk result IsAskable }
        ensures left { OnErr result (IsLeftAdding files.now self.old self.new name.now) }
    {
        let mut out = Vec::new(alloc);
        obey_add(
            alloc,
            files,
            base.as_bytes(),
            &mut self.manager,
            &mut self.changes,
            name,
            &mut out,
        )?;
        Ok(Turn::Told(Sequence::from_vec(out)))
    }

    /// Puts the loaded profile of a name, which is in force, into complain mode or disables it, as its file is loaded (`aatry_policy::load`), and
    /// keeps that change, like that of the line `complain NAME` or `disable NAME`. Where the file is loaded by its flags nothing is done.
    ///
    /// # Errors
    ///
    /// Where memory runs out. Everything is as it was then.
    pub fn switch(&mut self, alloc: Global, loading: Loading, name: &[u8]) -> Result<(), AllocError>
        ensures ok { OnOk result (self.new ≡ kept_switched loading self.old name.now) }
        ensures left { OnErr result (self.new ≡ self.old) }
    {
        switch(alloc, &mut self.manager, &mut self.changes, loading, name)
    }

    /// Answers a line, which has no line feed at its end: a command of the machine (`docs/commands.md`) is obeyed as by the machine, with a reply in
    /// words; but `undo` goes back over no change that the history leaves out, and is refused where it would have to. The session's own commands are
    /// `help`, `history`, `loading`, `quit`, `reload`, `status` and `why`. `files` are those that changes load, taken from the folder `base`, which
    /// has no `/` at its end.
    ///
    /// # Errors
    ///
    /// Where memory runs out: for what is kept of a change, and the change isn't made then; or for the text of the reply, and a command of the
    /// machine is obeyed then all the same, with its change kept. So the policy set and its history stay in step, and the session can go on.
    pub fn answer<'a>(
        &mut self,
        alloc: Global,
        files: &Files,
        base: &str,
        line: &'a [u8],
    ) -> Result<Turn<'a>, AllocError>
        ensures told { IfOk result (λ turn. (flag : Bool) × (words : List ℕ)
            × (record { answer = seen_turn turn; kept = self.new } ≡ turn_outcome files.now base.now words self.old line.now flag)) }
        ensures askable { IfOk result IsAskable }
        ensures left { OnErr result (IsLeft files.now self.old self.new line.now) }
    {
        match saying_in(line) {
            Saying::Command => {
                let mut out = Vec::new(alloc);
                obey(
                    alloc,
                    files,
                    base.as_bytes(),
                    &mut self.manager,
                    &mut self.changes,
                    line,
                    &mut out,
                )?;
                Ok(Turn::Told(Sequence::from_vec(out)))
            }
            Saying::Help => help(alloc),
            Saying::History => self.history(alloc),
            Saying::Quit => Ok(Turn::Quit),
            Saying::Reload => Ok(Turn::Reload),
            Saying::Status => Ok(Turn::Status),
            Saying::Widen => Ok(Turn::Widen),
            Saying::Why(question) => Ok(Turn::Why(question)),
            Saying::NoQuestion(fault) => {
                let mut out = Vec::new(alloc);
                push_no_question(alloc, fault, &mut out)?;
                Ok(Turn::Told(Sequence::from_vec(out)))
            }
        }
    }

    // The turn that prints the history.
    fn history<'a>(&self, alloc: Global) -> Result<Turn<'a>, AllocError>
        ensures told { IfOk result (λ turn. seen_turn turn ≡ Told (history_told self.now)) }
        ensures askable { IfOk result IsAskable }
    {
        let mut out = Vec::new(alloc);
        push_history(
            &mut out,
            self.changes.loaded,
            self.manager.depth(),
            self.manager.marks(),
            &self.changes.texts,
        )?;
        Ok(Turn::Told(Sequence::from_vec(out)))
    }
}

// The turn that prints the commands.
fn help<'a>(alloc: Global) -> Result<Turn<'a>, AllocError>
    ensures told { IfOk result (λ turn. seen_turn turn ≡ Told help_text) }
    ensures askable { IfOk result IsAskable }
{
    let mut out = Vec::new(alloc);
    push_help(&mut out)?;
    Ok(Turn::Told(Sequence::from_vec(out)))
}
