//! A courier that counts its turns, one that always delivers the same, and one that says who asked it.

use once_cell::race::OnceBox;
use run_ports::{Courier, Delivery};
use std::alloc::Global;
use std::test::Fail;

/// Delivers nothing, then the first reply again, then the fresh one, and so on.
#[derive(Drop)]
pub(crate) struct Thirds {
    turns: u64,
    missed: u64,
}

impl Thirds {
    pub(crate) fn new() -> Thirds {
        Thirds {
            turns: 0,
            missed: 0,
        }
    }
}

impl Courier for Thirds {
    ghost missed = { λ thirds. thirds.missed };

    fn for_edge(&self, _number: u64, _edge: u32) -> Thirds {
        Thirds::new()
    }

    fn turn(&mut self) -> Delivery {
        let turn = self.turns % 3;
        self.turns = self.turns.wrapping_add(1);
        if turn == 2 {
            return Delivery::Fresh;
        }
        self.missed = self.missed.saturating_add(1);
        if turn == 0 {
            Delivery::Nothing
        } else {
            Delivery::Again(0)
        }
    }
}

/// Delivers the same at each turn.
#[derive(Drop)]
pub(crate) struct Same {
    delivery: Delivery,
    missed: u64,
}

impl Same {
    pub(crate) fn new(delivery: Delivery) -> Same {
        Same {
            delivery,
            missed: 0,
        }
    }
}

impl Courier for Same {
    ghost missed = { λ same. same.missed };

    fn for_edge(&self, _number: u64, _edge: u32) -> Same {
        Same::new(self.delivery)
    }

    fn turn(&mut self) -> Delivery {
        if !matches!(self.delivery, Delivery::Fresh) {
            self.missed = self.missed.saturating_add(1);
        }
        self.delivery
    }
}

/// Delivers at once. When it is first asked it leaves the run's number in the cell of its edge.
#[derive(Drop)]
pub(crate) struct Telling<'c> {
    alloc: Global,
    cells: &'c [OnceBox<u64>],
    number: u64,
    edge: u32,
    missed: u64,
}

impl<'c> Telling<'c> {
    /// One of no edge.
    pub(crate) fn new(alloc: Global, cells: &'c [OnceBox<u64>]) -> Telling<'c> {
        Telling {
            alloc,
            cells,
            number: 0,
            edge: u32::MAX,
            missed: 0,
        }
    }
}

impl<'c> Courier for Telling<'c> {
    ghost missed = { λ telling. telling.missed };

    fn for_edge(&self, number: u64, edge: u32) -> Telling<'c> {
        Telling {
            alloc: self.alloc,
            cells: self.cells,
            number,
            edge,
            missed: 0,
        }
    }

    fn turn(&mut self) -> Delivery {
        tell(self.alloc, self.cells, self.edge, self.number);
        Delivery::Fresh
    }
}

/// Leaves a number in the cell of an edge, unless there is one.
fn tell(alloc: Global, cells: &[OnceBox<u64>], edge: u32, number: u64) {
    let Some(cell) = cells.get(edge as usize) else {
        return;
    };
    if let Ok(boxed) = Box::new(alloc, number) {
        let _ = cell.set(boxed);
    }
}

/// So many empty cells.
pub(crate) fn cells_of(alloc: Global, count: usize) -> Result<Vec<OnceBox<u64>>, Fail> {
    let mut cells = Vec::with_capacity(alloc, count)?;
    for _cell in 0..count {
        cells.push(OnceBox::new(alloc))?;
    }
    Ok(cells)
}

/// Whether the couriers of the first edges, and no others, were asked under this number.
pub(crate) fn were_asked(cells: &[OnceBox<u64>], edges: usize, number: u64) -> bool {
    let told = cells.iter().map(|cell| cell.get().copied());
    let wanted = (0..cells.len()).map(|edge| if edge < edges { Some(number) } else { None });
    told.eq(wanted)
}
