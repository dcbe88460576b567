use lid_base::Items;

/// The numbers of the columns of the inputs and outputs of a pearl.
#[derive(Drop)]
pub struct ShellPorts {
    pub ins: Items<u32>,
    pub outs: Items<u32>,
}
