//! Questions whose texts may have been decoded.

ghost use Rattle.std.specs.Prelude.{◌≡◌, IfOk};
ghost use Rattle.aa_set_commands.specs.Question.{IsWellFormed, seen_question};
ghost use Rattle.aatry_log_lines.specs.Asked.{IsWellAsked, question_of, well_asked-prop};

use crate::values::LoggedText;
use aa_profile_data::Perms;
use aa_set_commands::Question;
use std::alloc::{AllocError, Global};

// What is asked, with texts that may have been decoded.
#[derive(Drop)]
pub enum Asked<'a> {
    File {
        who: LoggedText<'a>,
        needs: Perms,
        owned: bool,
        path: LoggedText<'a>,
    },
    Exec {
        who: LoggedText<'a>,
        owned: bool,
        path: LoggedText<'a>,
    },
    Cap {
        who: LoggedText<'a>,
        number: u8,
    },
    Net {
        who: LoggedText<'a>,
        domain: u8,
        kind: u8,
    },
}

impl<'a> Asked<'a> {
    // The same question, which borrows from no line.
    fn into_owned<'b>(self, alloc: Global) -> Result<Asked<'b>, AllocError>
        ensures value { IfOk result (λ owned. question_of owned ≡ question_of self.entry) }
        ensures well { IsWellAsked self.entry → IfOk result IsWellAsked }
    {
        let owned = match self {
            Asked::File {
                who,
                needs,
                owned,
                path,
            } => Asked::File {
                who: who.into_owned(alloc)?,
                needs,
                owned,
                path: path.into_owned(alloc)?,
            },
            Asked::Exec { who, owned, path } => Asked::Exec {
                who: who.into_owned(alloc)?,
                owned,
                path: path.into_owned(alloc)?,
            },
            Asked::Cap { who, number } => Asked::Cap {
                who: who.into_owned(alloc)?,
                number,
            },
            Asked::Net { who, domain, kind } => Asked::Net {
                who: who.into_owned(alloc)?,
                domain,
                kind,
            },
        };
        Ok(owned)
    }
}

/// The question of a line. It owns the texts that had to be decoded, and borrows the others from the line.
#[derive(Drop)]
pub struct LoggedQuestion<'a> {
    asked: Asked<'a>,
    ghost well: { IsWellAsked asked } by { well_asked-prop asked },
}

impl<'a> LoggedQuestion<'a> {
    /// The question of what is asked. It takes no memory.
    pub fn new(asked: Asked<'a>) -> LoggedQuestion<'a>
        requires { IsWellAsked asked }
        ensures { result.asked ≡ asked.entry }
    {
        LoggedQuestion { asked }
    }

    /// The question with borrowed texts. It takes no memory.
    pub fn of(question: Question<'a>) -> LoggedQuestion<'a>
        requires { IsWellFormed question }
        ensures { question_of result.asked ≡ seen_question question.entry }
    {
        let asked = match question {
            Question::File {
                who,
                needs,
                owned,
                path,
            } => Asked::File {
                who: LoggedText::Written(who),
                needs,
                owned,
                path: LoggedText::Written(path),
            },
            Question::Exec { who, owned, path } => Asked::Exec {
                who: LoggedText::Written(who),
                owned,
                path: LoggedText::Written(path),
            },
            Question::Cap { who, number } => Asked::Cap {
                who: LoggedText::Written(who),
                number,
            },
            Question::Net { who, domain, kind } => Asked::Net {
                who: LoggedText::Written(who),
                domain,
                kind,
            },
        };
        LoggedQuestion { asked }
    }

    /// The question, as `Manager::ask` of `aa_set` takes it. It takes no memory.
    pub fn question(&self) -> Question<'_>
        ensures value { seen_question result ≡ question_of self.now.asked }
        ensures well { IsWellFormed result }
    {
        match &self.asked {
            Asked::File {
                who,
                needs,
                owned,
                path,
            } => Question::File {
                who: who.as_slice(),
                needs: *needs,
                owned: *owned,
                path: path.as_slice(),
            },
            Asked::Exec { who, owned, path } => Question::Exec {
                who: who.as_slice(),
                owned: *owned,
                path: path.as_slice(),
            },
            Asked::Cap { who, number } => Question::Cap {
                who: who.as_slice(),
                number: *number,
            },
            Asked::Net { who, domain, kind } => Question::Net {
                who: who.as_slice(),
                domain: *domain,
                kind: *kind,
            },
        }
    }

    /// The same question, which borrows from no line.
    ///
    /// # Errors
    ///
    /// Where memory runs out.
    pub fn into_owned<'b>(self, alloc: Global) -> Result<LoggedQuestion<'b>, AllocError>
        ensures { IfOk result (λ owned. question_of owned.asked ≡ question_of self.entry.asked) }
    {
        let asked = self.asked.into_owned(alloc)?;
        Ok(LoggedQuestion { asked })
    }
}
