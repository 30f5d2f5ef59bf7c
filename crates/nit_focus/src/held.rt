ghost use Rattle.std.specs.Prelude.{◌≡◌, ◌==◌, ◌↔◌, not, false, [], ◌∷◌, ◌++◌, filter, IsTrue};
ghost use Rattle.nit_focus.specs.Terms.{IsCode, list_any};

use arrayvec::ArrayVec;
use std::marker::Model;

/// How many codes there are, so as many may be held at most.
const CODES: usize = 768;

/// The codes of the keys and buttons that are held down, each at most 767 and no two equal, seen as
/// their list in the order in which they went down.
#[derive(Drop)]
pub(crate) struct Held {
    codes: ArrayVec<u16, CODES>,
}

impl Model for Held {
    ghost use Rattle.std.specs.Prelude.{ℕ, List};
    ghost use Rattle.nit_focus.specs.Held.{AreHeldCodes};

    ghost Value = { List ℕ };

    ghost view = { λ h. h.codes.items };

    ghost invariant = { λ h. AreHeldCodes h.codes.items };
}

impl Held {
    /// Nothing is held.
    pub(crate) fn nothing() -> Held
        ensures { result ≡ [] }
    {
        Held {
            codes: ArrayVec::new(),
        }
    }

    /// The codes that are held, in the order in which they went down.
    pub(crate) fn codes(&self) -> &[u16]
        ensures { result.now ≡ self.now }
    {
        self.codes.as_slice()
    }

    /// Whether nothing is held.
    pub(crate) fn is_empty(&self) -> bool
        ensures { IsTrue result ↔ (self.now ≡ []) }
    {
        self.codes.is_empty()
    }

    /// Whether the code is held.
    pub(crate) fn has(&self, code: u16) -> bool
        ensures { result ≡ list_any (λ j. j == code) self.now }
    {
        self.codes.as_slice().iter().any(|held| *held == code)
    }

    /// A code goes down that was not held.
    pub(crate) fn add(&mut self, code: u16)
        requires known { IsCode code }
        requires up { list_any (λ j. j == code) self.old ≡ false }
        ensures { self.new ≡ self.old ++ code ∷ [] }
    {
        self.codes.push(code);
    }

    /// A code goes up.
    pub(crate) fn remove(&mut self, code: u16)
        ensures { self.new ≡ filter (λ j. not (j == code)) self.old }
    {
        self.codes.retain(|held| *held != code);
    }
}
