/// What hears of each driver's first turn.
pub trait Meet {
    /// Is called once for each driver, by the worker that gives it its first turn.
    fn arrive(&self, driver: u32);
}

/// Hears nothing.
#[derive(Clone, Copy)]
pub struct NoMeet;

impl Meet for NoMeet {
    fn arrive(&self, _driver: u32) {}
}
