/// Why a recorder doesn't add an event.
#[derive(Clone, Copy)]
pub enum RecordFault {
    /// The event has no step.
    NoStep,
    /// It has one, and the version of the log doesn't have the event.
    OtherVersion,
}
