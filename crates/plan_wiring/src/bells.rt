//! Numbers of bells.
ghost use Rattle.std.specs.Prelude.{◌≡◌, ◌+◌, IfOk};

use sql_values::Memory;

/// The numbers from 0 on, up to the next one to be given.
#[derive(Drop)]
pub struct Bells {
    pub next: u32,
}

impl Bells {
    /// The next number. More than 32 bits count is answered with want of memory.
    pub fn take(&mut self) -> Result<u32, Memory>
        ensures bell { IfOk result (λ n. n ≡ self.old.next) }
        ensures next { IfOk result (λ n. self.new.next ≡ self.old.next + 1) }
    {
        let bell = self.next;
        let Some(next) = bell.checked_add(1) else {
            return Err(Memory);
        };
        self.next = next;
        Ok(bell)
    }
}
