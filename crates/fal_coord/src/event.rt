use fal_base::Envelope;

/// What happens at the coordinator: a record comes, or it begins with the first waiting call.
#[derive(Debug, Drop)]
pub enum CoordEvent {
    Hear(Envelope),
    Start,
}
