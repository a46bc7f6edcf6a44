use run_ports::{Courier, Delivery};

/// A courier that delivers nothing so often before each fresh reply.
#[derive(Drop)]
pub(crate) struct Slow {
    each: u32,
    left: u32,
    missed: u64,
}

impl Slow {
    pub(crate) fn new(each: u32) -> Slow {
        Slow {
            each,
            left: each,
            missed: 0,
        }
    }
}

impl Courier for Slow {
    ghost missed = { λ s. s.missed };

    fn for_edge(&self, _number: u64, _edge: u32) -> Slow {
        Slow::new(self.each)
    }

    fn turn(&mut self) -> Delivery {
        if self.left == 0 {
            self.left = self.each;
            return Delivery::Fresh;
        }
        self.left -= 1;
        self.missed = self.missed.saturating_add(1);
        Delivery::Nothing
    }
}
