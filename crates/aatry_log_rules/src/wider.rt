//! Wider rules than the printed ones, as they are offered beside them.

ghost use Rattle.std.specs.Prelude.{◌≡◌, ◌++◌, [], IfOk, OnErr, OnOk};
ghost use Rattle.std.specs.Option.{option_copied, option_map};
ghost use Rattle.aa_profile_data.specs.SeenRequests.{request_of};
ghost use Rattle.aatry_log_rules.specs.Told.{told_of};
ghost use Rattle.aatry_log_rules.specs.Wider.{has_text, told_with, wider_for, wider_line, wider_on, wider_once, wider_text, wider_than, with_told};

use crate::finding::Finding;
use crate::headings::is_of;
use aa_profile_data::{Request, Rule};
use aatry_log_globs::wider_rule;
use aatry_report::Form;
use indexmap::IndexSet;
use std::alloc::{AllocError, Global};
use std::marker::Model;

// The wider rule than one on a path, if it is on files and something of the path is widened.
fn wider_on(alloc: Global, path: &[u8], rule: &Rule) -> Result<Option<Vec<u8>>, AllocError>
    ensures { IfOk result (λ made. option_map (λ text. text.items) made ≡ wider_on path.now rule.now) }
{
    match rule {
        Rule::File(rule) => wider_rule(alloc, rule, path),
        Rule::Cap(_) | Rule::Net(_) | Rule::Other(_) => Ok(None),
    }
}

// The wider rule than one that a request lacks, if there is one.
fn wider_than(
    alloc: Global,
    request: &Request<'_>,
    rule: &Rule,
) -> Result<Option<Vec<u8>>, AllocError>
    ensures { IfOk result (λ made. option_map (λ text. text.items) made ≡ wider_than (request_of request.entry.now) rule.now) }
{
    match request {
        Request::File { path, .. } => wider_on(alloc, path, rule),
        Request::Cap(_) | Request::Net { .. } => Ok(None),
    }
}

/// The wider rule than what is found for a request, if there is one, and wider rules are asked for.
///
/// # Errors
///
/// Where memory runs out.
pub fn wider_for(
    alloc: Global,
    globs: bool,
    request: &Request<'_>,
    finding: &Finding,
) -> Result<Option<Vec<u8>>, AllocError>
    ensures { IfOk result (λ made. option_map (λ text. text.items) made ≡ wider_for globs (request_of request.entry.now) finding.now) }
{
    if !globs {
        return Ok(None);
    }
    match finding {
        Finding::Missing(rule) => wider_than(alloc, request, rule),
        Finding::None(_) => Ok(None),
    }
}

// Appends a wider rule on a line of its own to a text.
fn push_line(text: &[u8], out: &mut Vec<u8>) -> Result<(), AllocError>
    ensures { OnOk result (out.new.items ≡ out.old.items ++ wider_line text.now) }
{
    out.extend_from_slice(b"  # wider: ")?;
    out.extend_from_slice(text)?;
    out.push(b'\n')?;
    Ok(())
}

// Appends a wider rule to a text unless it is printed already; records have none.
fn push_once(form: Form, told: bool, text: &[u8], out: &mut Vec<u8>) -> Result<(), AllocError>
    ensures { OnOk result (out.new.items ≡ out.old.items ++ wider_once form told text.now) }
{
    match form {
        Form::Lines if !told => push_line(text, out),
        Form::Lines | Form::Records => Ok(()),
    }
}

/// The texts of the wider rules that are printed for an asker, each once.
#[derive(Drop)]
pub struct WiderTold {
    texts: IndexSet<Vec<u8>>,
}

impl Model for WiderTold {
    ghost use Rattle.std.specs.Prelude.{ℕ, List};
    ghost use Rattle.aatry_log_rules.specs.SeenWider.{seen_texts};

    ghost Value = { List (List ℕ) };

    ghost view = { λ told. seen_texts told.texts.keys };
}

impl WiderTold {
    /// No wider rules. It takes no memory.
    pub fn new(alloc: Global) -> WiderTold
        ensures { result ≡ [] }
    {
        WiderTold {
            texts: IndexSet::new(alloc),
        }
    }

    /// Forgets them where the last rule was another asker's.
    pub fn pass_to(&mut self, last: Option<&[u8]>, who: &[u8])
        ensures { self.new ≡ told_of (option_copied last.entry) who.now self.old }
    {
        if !is_of(last, who) {
            self.texts.clear();
        }
    }

    // Whether this text is printed already.
    fn has(&self, text: &[u8]) -> bool
        ensures { result ≡ has_text text.now self.now }
    {
        self.texts.contains(text)
    }

    // Notes that this text is printed.
    fn note(&mut self, text: Vec<u8>) -> Result<(), AllocError>
        ensures { OnOk result (self.new ≡ with_told text.items self.old) }
    {
        self.texts.insert(text)?;
        Ok(())
    }

    // Appends a wider rule to a text, where it isn't printed yet, and notes it.
    fn push_one(&mut self, form: Form, text: Vec<u8>, out: &mut Vec<u8>) -> Result<(), AllocError>
        ensures told { OnOk result (self.new ≡ with_told text.items self.old) }
        ensures text { OnOk result (out.new.items ≡ out.old.items ++ wider_once form (has_text text.items self.old) text.items) }
    {
        push_once(form, self.has(&text), &text, out)?;
        self.note(text)
    }

    /// Appends a wider rule to a text, if there is one and it isn't printed yet, and notes it: a comment on a line of its own. Records have none.
    ///
    /// # Errors
    ///
    /// Where memory runs out. A beginning may have been appended then.
    pub fn push(
        &mut self,
        form: Form,
        wider: Option<Vec<u8>>,
        out: &mut Vec<u8>,
    ) -> Result<(), AllocError>
        ensures told { OnOk result (self.new ≡ told_with (option_map (λ text. text.items) wider) self.old) }
        ensures text { OnOk result (out.new.items ≡ out.old.items ++ wider_text form self.old (option_map (λ text. text.items) wider)) }
    {
        match wider {
            None => Ok(()),
            Some(text) => self.push_one(form, text, out),
        }
    }
}
