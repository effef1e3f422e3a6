/// What a writer is: fresh, open (with so many bytes gathered and so many blocks sent), poisoned by a refusal, or closed.
#[derive(Clone, Copy)]
pub enum Phase {
    Fresh,
    Open(usize, u64),
    Poisoned,
    Closed,
}
