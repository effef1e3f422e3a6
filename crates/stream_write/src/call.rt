/// What can be asked of a writer.
#[derive(Clone, Copy)]
pub enum FileCall<'a> {
    Write(&'a [u8]),
    Close,
}
