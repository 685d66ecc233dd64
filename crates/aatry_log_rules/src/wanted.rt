//! What rules are wanted for: the requests of each asker, those for one path joined, with how often they occurred.

ghost use Rattle.std.specs.Prelude.{◌≡◌, [], IfOk, OnErr, OnOk, map};
ghost use Rattle.aa_set_commands.specs.Question.{seen_question};
ghost use Rattle.aatry_log_rules.specs.Wanted.{IsByWho, both, subject, wanted_with};
ghost use Rattle.aatry_log_rules.specs.SeenWanted.{seen_wanted};
ghost use Rattle.aatry_log_rules.specs.code.Entries.{wanted_under};

use aa_explain_rules::joined;
use aa_profile_data::{Perms, Request};
use aa_set_commands::Question;
use aatry_requests::push_question;
use bitflags::Flags;
use indexmap::IndexMap;
use std::alloc::{AllocError, Global};
use std::marker::Model;

/// What one rule is wanted for.
#[derive(Clone, Copy)]
pub struct Wanted<'t> {
    /// The asker, by a full name.
    pub who: &'t [u8],
    /// The request: for one path the requests for it, joined.
    pub request: Request<'t>,
    /// How often these occurred, up to the greatest number.
    pub times: u64,
}

/// The wanted requests, in the order in which they first occurred, each once.
#[derive(Drop)]
pub struct WantedRules<'t> {
    by_text: IndexMap<Vec<u8>, Wanted<'t>>,
}

impl<'t> Model for WantedRules<'t> {
    ghost use Rattle.std.specs.Prelude.{List};
    ghost use Rattle.aatry_log_rules.specs.Wanted.{Wanted as SeenWanted};
    ghost use Rattle.aatry_log_rules.specs.SeenWanted.{AreUnderTexts, seen_entries};

    ghost Value = { List SeenWanted };

    ghost view = { λ w. seen_entries w.by_text.entries };

    ghost invariant = { λ w. AreUnderTexts w.by_text.entries };
}

// What is asked about, and by whom: a path with no letter.
fn subject<'t>(wanted: &Wanted<'t>) -> Question<'t>
    ensures { seen_question result ≡ subject (seen_wanted wanted.now) }
{
    let who = wanted.who;
    match wanted.request {
        Request::File { path, .. } => Question::File {
            who,
            needs: Perms::empty(),
            owned: false,
            path,
        },
        Request::Cap(number) => Question::Cap { who, number },
        Request::Net { domain, kind } => Question::Net { who, domain, kind },
    }
}

// A wanted request, joined with what is wanted already about the same.
fn both<'t>(asked: Wanted<'t>, wanted: &Wanted<'_>) -> Wanted<'t>
    ensures { seen_wanted result ≡ both (seen_wanted asked.entry) (seen_wanted wanted.now) }
{
    Wanted {
        who: asked.who,
        request: joined(&asked.request, &wanted.request),
        times: wanted.times.saturating_add(asked.times),
    }
}

// A wanted request, joined with the one that has the same text, if there is one.
fn wanted_under<'t>(
    by_text: &IndexMap<Vec<u8>, Wanted<'t>>,
    text: &[u8],
    asked: Wanted<'t>,
) -> Wanted<'t>
    ensures { seen_wanted result ≡ wanted_under (seen_wanted asked.entry) text.now by_text.now.entries }
{
    match by_text.get(text) {
        Some(wanted) => both(asked, wanted),
        None => asked,
    }
}

impl<'t> WantedRules<'t> {
    /// No wanted requests. It takes no memory.
    pub fn new(alloc: Global) -> WantedRules<'t>
        ensures { result ≡ [] }
    {
        WantedRules {
            by_text: IndexMap::new(alloc),
        }
    }

    /// Adds a wanted request: joined with what is wanted already for the same asker about the same path, capability or sockets, or else after all.
    ///
    /// # Errors
    ///
    /// Where memory runs out. It is as before then.
    pub fn want(&mut self, alloc: Global, asked: Wanted<'t>) -> Result<(), AllocError>
        ensures wanted { OnOk result (self.new ≡ wanted_with (seen_wanted asked.entry) self.old) }
        ensures unchanged { OnErr result (self.new ≡ self.old) }
    {
        let mut text = Vec::new(alloc);
        push_question(&mut text, &subject(&asked))?;
        let wanted = wanted_under(&self.by_text, &text, asked);
        self.by_text.insert(text, wanted)?;
        Ok(())
    }

    // All wanted requests, in their order.
    fn all(self, alloc: Global) -> Result<Vec<Wanted<'t>>, AllocError>
        ensures { IfOk result (λ all. map seen_wanted all.items ≡ self.entry) }
    {
        let WantedRules { by_text } = self;
        let mut all = Vec::with_capacity(alloc, by_text.len())?;
        for wanted in by_text.into_values() {
            all.push(wanted)?;
        }
        Ok(all)
    }

    /// All wanted requests, by the names of the askers, in the order of their bytes.
    ///
    /// # Errors
    ///
    /// Where memory runs out.
    pub fn by_who(self, alloc: Global) -> Result<Vec<Wanted<'t>>, AllocError>
        ensures { IfOk result (λ all. IsByWho self.entry (map seen_wanted all.items)) }
    {
        let mut all = self.all(alloc)?;
        all.sort_by(|one, other| one.who.cmp(&other.who))?;
        Ok(all)
    }
}
