//! A log of what was heard and said, in its order. Only clauses see it: at run time it is empty.
ghost use Rattle.std.specs.Prelude.{◌≡◌, ◌++◌, [], ◌∷◌, ℕ, List};
ghost use Rattle.std.specs.Borrow.{ftrue};
ghost use Rattle.serving.specs.Moments.{Moment};

use std::marker::{Model, PhantomData};

/// All bytes that were heard and that were said, and for each call that heard, what had been heard and said before it. It takes no memory.
#[derive(Drop)]
pub struct TalkLog {
    marker: PhantomData<u8>,
    pub ghost moments: { List Moment },
    pub ghost heard: { List ℕ },
    pub ghost said: { List ℕ },
}

impl Model for TalkLog {
    ghost also_owns = { λ _. ftrue };
}

impl TalkLog {
    /// The empty log.
    pub fn new() -> Self
        ensures { (result.moments ≡ []) × (result.heard ≡ []) × (result.said ≡ []) }
    {
        TalkLog {
            marker: PhantomData,
        }
    }

    /// Logs a call that has heard bytes, or none.
    pub fn hear(&mut self, _bytes: &[u8])
        ensures { (self.new.moments
            ≡ self.old.moments ++ record { heard = self.old.heard; said = self.old.said } ∷ [])
            × (self.new.heard ≡ self.old.heard ++ _bytes.now)
            × (self.new.said ≡ self.old.said) }
    {}

    /// Logs bytes that were said.
    pub fn say(&mut self, _bytes: &[u8])
        ensures { (self.new.moments ≡ self.old.moments)
            × (self.new.heard ≡ self.old.heard)
            × (self.new.said ≡ self.old.said ++ _bytes.now) }
    {}
}
