//! A log of the bytes that were read or written. Only clauses see it: at run time it is empty.
ghost use Rattle.std.specs.Prelude.{◌≡◌, ◌++◌, [], ◌∷◌, ℕ, List};
ghost use Rattle.std.specs.Borrow.{ftrue};
ghost use Rattle.cmr_io.specs.Reads.{with_more};

use std::fmt;
use std::marker::{Model, PhantomData};

/// The names of reads or of writes in the order in which they were begun; the bytes of each; and all bytes, whether one
/// was begun or not. It takes no memory.
#[derive(Drop)]
pub struct ByteLog {
    marker: PhantomData<u8>,
    pub ghost names: { List (List ℕ) },
    pub ghost texts: { List (List ℕ) },
    pub ghost all: { List ℕ },
}

impl Model for ByteLog {
    ghost also_owns = { λ _. ftrue };
}

impl fmt::Debug for ByteLog {
    fn fmt<W: fmt::Write>(&self, f: &mut fmt::Formatter<W>) -> fmt::Result {
        f.write_str("ByteLog")
    }
}

impl ByteLog {
    /// The empty log.
    pub fn new() -> Self
        ensures { (result.names ≡ []) × (result.texts ≡ []) × (result.all ≡ []) }
    {
        ByteLog {
            marker: PhantomData,
        }
    }

    /// Logs that a read or a write of this name was begun. It has no bytes yet.
    pub fn begin(&mut self, _name: &[u8])
        ensures { (self.new.names ≡ self.old.names ++ _name.now ∷ [])
            × (self.new.texts ≡ self.old.texts ++ [] ∷ [])
            × (self.new.all ≡ self.old.all) }
    {}

    /// Logs more bytes of the read or the write that was begun last.
    pub fn add(&mut self, _bytes: &[u8])
        ensures { (self.new.names ≡ self.old.names)
            × (self.new.texts ≡ with_more self.old.texts _bytes.now)
            × (self.new.all ≡ self.old.all ++ _bytes.now) }
    {}
}
