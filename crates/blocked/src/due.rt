ghost use Rattle.std.specs.Prelude.{◌≡◌};

/// The duty to ring the bell of this number. Only `Bell::ring` takes it off: it has no `Drop`.
pub struct Due {
    number: u32,
}

impl Due {
    pub fn of(bell: u32) -> Due
        ensures { result.number ≡ bell }
    {
        Due { number: bell }
    }

    /// The number of the bell.
    pub fn bell(&self) -> u32
        ensures { result ≡ self.now.number }
    {
        self.number
    }

    pub(crate) fn spend(self) {
        let Due { number: _ } = self;
    }
}
