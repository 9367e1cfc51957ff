use fal_base::Envelope;

/// A step of a client: it sends its next call, or it gets a record.
#[derive(Debug, Drop)]
pub enum ClientEvent {
    Send,
    Get(Envelope),
}
