/// Where a column is led back to.
#[derive(Clone, Copy)]
pub enum Origin {
    /// A constant.
    Const(bool),
    /// A port of a node, by its place among the ports of the node.
    Port { node: u32, place: u32 },
}
