//! Records.

ghost use Rattle.std.specs.Prelude.{◌≡◌, false};
ghost use Rattle.serde_json.specs.View.{members_view};
ghost use Rattle.serde_json.specs.Written.{members_have_float};

use crate::texts::{text_value, texts_value};
use serde_json::{Map, Value};
use std::alloc::{AllocError, Global};

/// A record: an object of JSON. Its members are in the order of their names.
pub struct Record {
    /// The members by their names; a name has one.
    members: Map<String, Value>,
    ghost whole: { members_have_float (members_view members.entries) ≡ false },
}

impl Drop for Record {
    // Proved here, once for all crates that own one.
    fn drop(self) {
        let Record { members } = self;
        drop(members);
    }
}

impl Record {
    ghost use Rattle.std.specs.Prelude.{◌++◌, IfOk, OnErr, OnOk, map};
    ghost use Rattle.aatry_report.specs.Records.{record_line, record_of, with_number, with_text, with_texts};
    ghost use Rattle.aatry_report.specs.SeenRecord.{seen_record};

    /// A record with one member, `kind`, that says what the record is about.
    ///
    /// # Errors
    ///
    /// Where memory runs out.
    pub fn new(alloc: Global, kind: &str) -> Result<Record, AllocError>
        ensures { IfOk result (λ made. seen_record made ≡ record_of kind.now) }
    {
        let mut members = Map::new(alloc);
        serde_json::put(
            &mut members,
            alloc,
            "kind",
            Value::try_from_str(alloc, kind)?,
        )?;
        Ok(Record { members })
    }

    /// Puts a text into the record by a name. One that isn't UTF-8 is an object with the member `hex`, its bytes in hexadecimal digits.
    ///
    /// # Errors
    ///
    /// Where memory runs out. The record is as before then.
    #[tactic(auto, using(crate::proofs::RecordLemmas::plain_put, crate::proofs::RecordLemmas::plain_text))]
    pub fn put_text(&mut self, alloc: Global, name: &str, text: &[u8]) -> Result<(), AllocError>
        ensures ok { OnOk result (seen_record self.new ≡ with_text name.now text.now (seen_record self.old)) }
        ensures err { OnErr result (seen_record self.new ≡ seen_record self.old) }
    {
        let value = text_value(alloc, text)?;
        serde_json::put(&mut self.members, alloc, name, value)?;
        Ok(())
    }

    /// Puts a number into the record by a name.
    ///
    /// # Errors
    ///
    /// Where memory runs out. The record is as before then.
    #[tactic(auto, using(crate::proofs::RecordLemmas::plain_put))]
    pub fn put_number(&mut self, alloc: Global, name: &str, number: usize) -> Result<(), AllocError>
        ensures ok { OnOk result (seen_record self.new ≡ with_number name.now number (seen_record self.old)) }
        ensures err { OnErr result (seen_record self.new ≡ seen_record self.old) }
    {
        serde_json::put(&mut self.members, alloc, name, Value::from(number))?;
        Ok(())
    }

    /// Puts texts into the record by a name, in their order, each like `put_text`.
    ///
    /// # Errors
    ///
    /// Where memory runs out. The record is as before then.
    #[tactic(auto, using(crate::proofs::RecordLemmas::plain_put, crate::proofs::RecordLemmas::plain_texts))]
    pub fn put_texts(
        &mut self,
        alloc: Global,
        name: &str,
        texts: &[&[u8]],
    ) -> Result<(), AllocError>
        ensures ok { OnOk result (seen_record self.new ≡ with_texts name.now (map (λ text. text.now) texts.now) (seen_record self.old)) }
        ensures err { OnErr result (seen_record self.new ≡ seen_record self.old) }
    {
        let value = texts_value(alloc, texts)?;
        serde_json::put(&mut self.members, alloc, name, value)?;
        Ok(())
    }

    /// Appends the record to a text, on a line of its own.
    ///
    /// # Errors
    ///
    /// Where memory runs out. Nothing has been appended then.
    pub fn push(self, alloc: Global, out: &mut Vec<u8>) -> Result<(), AllocError>
        ensures ok { OnOk result (out.new.items ≡ out.old.items ++ record_line (seen_record self)) }
        ensures err { OnErr result (out.new.items ≡ out.old.items) }
    {
        let Record { members } = self;
        let mut line = Value::Object(members).to_vec(alloc)?;
        line.push(b'\n')?;
        out.extend_from_slice(&line)?;
        Ok(())
    }
}
