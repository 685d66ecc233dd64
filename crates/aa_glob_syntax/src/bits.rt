//! A stack of bits.

ghost use Rattle.std.specs.Prelude.{◌≡◌, ◌<◌, ◌+◌, ◌∷◌, [], Bool, false, true, length};
ghost use Rattle.aa_glob_syntax.specs.Bits.{bit};
ghost use Rattle.aa_glob_syntax.specs.OpenGroups.{outer, with_innermost};

use std::marker::Model;

/// A stack of at most 16 bits, one for each group that is open within the others. Contracts see a list, the topmost bit first.
#[derive(Clone, Copy)]
pub struct BitStack {
    len: u32,
    // The lowest bit is the topmost.
    bits: u32,
}

impl Model for BitStack {
    ghost use Rattle.std.specs.Prelude.{◌<◌, ◌≤◌, ◌^◌, Bool, List, length};
    ghost use Rattle.aa_glob_syntax.specs.Bits.{bits_of, number_of};
    ghost use Rattle.aa_glob_syntax.specs.BitLaws.{length-bits, number-of-bits};

    ghost Value = { List Bool };

    ghost view = { λ s. bits_of s.len s.bits };

    ghost invariant = { λ s. (s.len ≤ 16) × (s.bits < 2 ^ s.len) };

    ghost inverse = { λ bits. record { len = length bits; bits = number_of bits } };

    ghost inverse_ok = { λ s ok i. record { len = length-bits s.len s.bits i; bits = number-of-bits s.len s.bits ok.1 i } };
}

impl BitStack {
    /// The empty stack.
    pub fn none() -> BitStack
        ensures { result ≡ [] }
    {
        BitStack { len: 0, bits: 0 }
    }

    /// How many bits are on the stack.
    pub fn len(self) -> u32
        ensures { result ≡ length self }
    {
        self.len
    }

    /// The topmost bit.
    pub fn top(self) -> bool
        requires { 0 < length self }
        ensures { self ≡ result ∷ outer self }
    {
        self.bits % 2 == 1
    }

    /// The stack with one more bit on top.
    pub fn pushed(self, top: bool) -> BitStack
        requires { length self < 16 }
        ensures { result ≡ top ∷ self }
    {
        BitStack {
            len: self.len + 1,
            bits: self.bits * 2 + as_number(top),
        }
    }

    /// The stack without its topmost bit.
    pub fn popped(self) -> BitStack
        requires { 0 < length self }
        ensures { result ≡ outer self }
    {
        BitStack {
            len: self.len - 1,
            bits: self.bits / 2,
        }
    }

    /// The stack with its topmost bit set.
    pub fn with_top_set(self) -> BitStack
        requires { 0 < length self }
        ensures { result ≡ with_innermost (λ _. true) self }
    {
        if self.bits % 2 == 1 {
            return self;
        }
        BitStack {
            len: self.len,
            bits: self.bits + 1,
        }
    }
}

// A bit as a number.
fn as_number(is_set: bool) -> u32
    ensures { result ≡ bit is_set }
{
    if is_set { 1 } else { 0 }
}
