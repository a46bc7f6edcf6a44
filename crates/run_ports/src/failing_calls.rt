ghost use Rattle.std.specs.Prelude.{◌≡◌};
ghost use Rattle.run_ports.specs.FailingCalls.{fails_next, counted};

/// The calls of an object in memory, and the numbers, from 1, of those that are to fail.
#[derive(Drop)]
pub(crate) struct FailingCalls {
    numbers: Vec<u32>,
    made: u64,
}

impl FailingCalls {
    pub(crate) fn of(numbers: Vec<u32>) -> FailingCalls
        ensures numbers { result.numbers ≡ numbers }
        ensures made { result.made ≡ 0 }
    {
        FailingCalls { numbers, made: 0 }
    }

    /// Counts one more call, and answers whether it is to fail.
    pub(crate) fn count_one(&mut self) -> bool
        ensures fails { result ≡ fails_next self.old }
        ensures counted { self.new ≡ counted self.old }
    {
        let number = self.made.saturating_add(1);
        self.made = number;
        self.numbers.iter().any(|&n| u64::from(n) == number)
    }
}
