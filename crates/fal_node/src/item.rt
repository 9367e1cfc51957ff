use fal_wire::Message;

/// A record that a node serves as soon as it can.
#[derive(Debug, Drop)]
pub struct Item {
    pub number: u64,
    pub message: Message,
}
