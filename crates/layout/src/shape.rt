/// What stands after a file's header.
#[derive(Clone, Copy)]
pub enum Shape {
    /// That many full blocks.
    Full(u64),
    /// That many full blocks and a last one that holds so many plaintext bytes, fewer than a full one and perhaps none.
    Partial(u64, u32),
}
