//! The groups that are open at a place in a pattern's text.

use crate::bits::BitStack;
use crate::element::Element;
use crate::pattern_error::PatternError;

// How deep groups may be nested.
const DEEPEST: u32 = 16;

/// The open groups as a stack, the innermost on top: for each whether it had a comma yet.
#[derive(Clone, Copy)]
pub struct Groups {
    commas: BitStack,
}

impl Groups {
    ghost use Rattle.std.specs.Prelude.{◌≡◌, ◌≢◌, ◌∷◌, [], true, List, Option, None, Some, IfOk, IfErr};
    ghost use Rattle.aa_glob_syntax.specs.Cursor.{meaning};
    ghost use Rattle.aa_glob_syntax.specs.Elements.{Element as Spelled, Open};
    ghost use Rattle.aa_glob_syntax.specs.Faults.{fault_at_close, fault_at_end, first_fault, with_comma};
    ghost use Rattle.aa_glob_syntax.specs.declared.pattern_error.PatternError.{PatternError as Refusal};
    ghost use Rattle.aa_glob_syntax.specs.declared.pattern_error.PatternError.TheVariants.{Memory};

    /// No group.
    pub fn none() -> Groups
        ensures { result.commas ≡ [] }
    {
        Groups {
            commas: BitStack::none(),
        }
    }

    /// The groups that are open after an element, or the element's fault. It takes no memory.
    ///
    /// # Errors
    ///
    /// `TooDeep` for a brace that opens a group within 16 open ones, `StrayClose` for one that closes none, and `FewAlternatives` for one that
    /// closes a group without a comma.
    pub fn behind(self, element: Element) -> Result<Groups, PatternError>
        ensures ok { IfOk result
            (λ groups. (es : List Spelled) → first_fault (meaning element.entry ∷ es) self.commas ≡ first_fault es groups.commas) }
        ensures refused { IfErr result
            (λ error. (es : List Spelled) → first_fault (meaning element.entry ∷ es) self.commas ≡ Some error) }
        ensures memory { IfErr result (λ error. error ≢ Memory) }
    {
        match element {
            Element::Open => self.opened(),
            Element::Comma => Ok(self.with_comma()),
            Element::Close => self.closed(),
            _ => Ok(self),
        }
    }

    /// Refuses groups that are still open at a text's end.
    ///
    /// # Errors
    ///
    /// `UnclosedGroup`.
    pub fn end(self) -> Result<(), PatternError>
        ensures ok { IfOk result (λ _. fault_at_end self.commas ≡ None) }
        ensures refused { IfErr result (λ error. fault_at_end self.commas ≡ Some error) }
        ensures memory { IfErr result (λ error. error ≢ Memory) }
    {
        if self.commas.len() > 0 {
            return Err(PatternError::UnclosedGroup);
        }
        Ok(())
    }

    // The groups after a brace that opens one.
    fn opened(self) -> Result<Groups, PatternError>
        ensures ok { IfOk result
            (λ groups. (es : List Spelled) → first_fault (Open ∷ es) self.commas ≡ first_fault es groups.commas) }
        ensures refused { IfErr result (λ error. (es : List Spelled) → first_fault (Open ∷ es) self.commas ≡ Some error) }
        ensures memory { IfErr result (λ error. error ≢ Memory) }
    {
        if self.commas.len() == DEEPEST {
            return Err(PatternError::TooDeep);
        }
        Ok(Groups {
            commas: self.commas.pushed(false),
        })
    }

    // The groups after a comma.
    fn with_comma(self) -> Groups
        ensures { result.commas ≡ with_comma self.commas }
    {
        if self.commas.len() == 0 {
            return self;
        }
        Groups {
            commas: self.commas.with_top_set(),
        }
    }

    // The groups after a brace that closes one.
    fn closed(self) -> Result<Groups, PatternError>
        ensures ok { IfOk result (λ groups. self.commas ≡ true ∷ groups.commas) }
        ensures refused { IfErr result (λ error. (behind : Option Refusal) → fault_at_close self.commas behind ≡ Some error) }
        ensures memory { IfErr result (λ error. error ≢ Memory) }
    {
        if self.commas.len() == 0 {
            return Err(PatternError::StrayClose);
        }
        if !self.commas.top() {
            return Err(PatternError::FewAlternatives);
        }
        Ok(Groups {
            commas: self.commas.popped(),
        })
    }
}
