ghost use Rattle.std.specs.Prelude.{◌≡◌};
ghost use Rattle.storage.specs.Limits.{limit_port, Passed};
ghost use Rattle.storage.specs.Ports.{shut};
ghost use Rattle.storage.specs.Writes.{Written};

use crate::sink::FileWrite;
use error::storage::StorageError;

/// A sink that hands at most a number of bytes on to the sink below it: the lesser of the limit and of that sink's room holds.
#[derive(Drop)]
pub struct Limit<S> {
    inner: S,
    left: u64,
}

impl<S> Limit<S> {
    /// At most `limit` bytes into `inner`, which may also be a sink that is lent, `&mut S`.
    pub fn new(inner: S, limit: u64) -> Limit<S>
        ensures { (result.inner ≡ inner) × (result.left ≡ limit) }
    {
        Limit { inner, left: limit }
    }

    /// The sink below, with what the limit let through.
    pub fn into_inner(self) -> S
        ensures { result ≡ self.inner }
    {
        self.inner
    }
}

impl<S: FileWrite> FileWrite for Limit<S> {
    ghost port = { limit_port S.FileWrite.port };

    ghost loans = { λ l. S.FileWrite.loans l.inner };

    fn write(&mut self, bytes: &[u8]) -> Result<(), StorageError>
        ensures written { Written (limit_port S.FileWrite.port self.old) bytes.now result (limit_port S.FileWrite.port self.new) }
        ensures lent { S.FileWrite.loans self.new.inner ≡ S.FileWrite.loans self.old.inner }
        ensures passed { Passed S.FileWrite.port self.old bytes.now result self.new }
    {
        let left = self
            .left
            .checked_sub(bytes.len() as u64)
            .ok_or(StorageError::BlockNotTaken)?;
        self.inner.write(bytes)?;
        self.left = left;
        Ok(())
    }

    fn close(&mut self)
        ensures closed { limit_port S.FileWrite.port self.new ≡ shut (limit_port S.FileWrite.port self.old) }
        ensures lent { S.FileWrite.loans self.new.inner ≡ S.FileWrite.loans self.old.inner }
        ensures passed { (S.FileWrite.port self.new.inner ≡ shut (S.FileWrite.port self.old.inner)) × (self.new.left ≡ self.old.left) }
    {
        self.inner.close();
    }
}
