use lid_base::Items;

/// What gives a column its bit. Other columns are named by their numbers.
#[derive(Drop)]
pub enum ColumnDriver {
    /// A data input of the root, by its place among them.
    Input(u32),
    /// A latch, that begins with the bit `first`.
    Latch {
        first: bool,
        input: u32,
    },
    /// The cover of a cell of a model, with its inputs in order.
    Cover {
        model: u32,
        cell: u32,
        inputs: Items<u32>,
    },
    /// The other side of a binding.
    Connection(u32),
}
