/// Why a value was not kept. It is handed back.
#[derive(Drop)]
pub enum SetFault<T> {
    /// The cell holds another value, or a thread set one in the same moment.
    Refused(T),
    Memory(T),
}
