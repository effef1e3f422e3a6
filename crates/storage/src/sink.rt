ghost use Rattle.std.specs.Prelude.{◌≡◌, ℕ, List, [], ◌∷◌};
ghost use Rattle.storage.specs.Ports.{Port, shut};
ghost use Rattle.storage.specs.Writes.{Written};

use error::storage::StorageError;

/// Where the bytes of a file go.
pub trait FileWrite {
    // the bytes that it took, the room that is left, and whether it is open
    ghost port: { Self → Port };

    // the names of the loans that it holds, which no call changes: so a lender knows what came of its own
    ghost loans: { Self → List ℕ } = { λ _. [] };

    /// Takes all of the bytes exactly where it is open and has the room for them. A refused write is `BlockNotTaken`, and changes
    /// nothing.
    fn write(&mut self, bytes: &[u8]) -> Result<(), StorageError>
        ensures written { Written (port self.old) bytes.now result (port self.new) }
        ensures lent { loans self.new ≡ loans self.old };

    /// Takes no more bytes from here on. It never refuses.
    fn close(&mut self)
        ensures closed { port self.new ≡ shut (port self.old) }
        ensures lent { loans self.new ≡ loans self.old };
}

/// A sink that is lent is a sink.
impl<'a, S: FileWrite> FileWrite for &'a mut S {
    ghost port = { λ s. S.FileWrite.port s.now };

    ghost loans = { λ s. s.ghost_name ∷ S.FileWrite.loans s.now };

    fn write(&mut self, bytes: &[u8]) -> Result<(), StorageError> {
        (**self).write(bytes)
    }

    fn close(&mut self) {
        (**self).close();
    }
}
