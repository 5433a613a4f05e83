//! What the tables of both kinds share.
use orders::OrderFault;

/// The place at which something is refused, if it is.
pub(crate) type Answer = Option<usize>;

/// The answer to what reads, or can be made.
pub(crate) const FITS: Answer = None;

/// The answer that a result stands for.
pub(crate) fn answer<T: Drop>(res: Result<T, OrderFault>) -> Answer {
    res.err().map(|fault| fault.place)
}

/// The field with another byte at a place.
pub(crate) fn with(mut field: [u8; 16], place: usize, byte: u8) -> [u8; 16] {
    if let Some(old) = field.get_mut(place) {
        *old = byte;
    }
    field
}
