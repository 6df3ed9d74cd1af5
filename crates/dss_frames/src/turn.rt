/// What a whole DSS leaves to come: the request that begins a command, an object DSS that has the
/// correlator of the one before, or nothing, where the command is whole.
#[derive(Clone, Copy)]
pub enum Turn {
    Request,
    Object(u16),
    Nothing,
}
