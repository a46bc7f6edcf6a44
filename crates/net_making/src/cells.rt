//! The cells of a wiring.
ghost use Rattle.std.specs.Prelude.{◌≡◌, map, IfOk};
ghost use Rattle.plan_wiring.specs.Handed.{SeatsForm, seats_view};

use net_parts::{FilterCells, JoinCells};
use plan_wiring::Seats;
use sql_values::Memory;
use std::alloc::Global;

/// The cells in which the pipes publish the right sides of joins.
pub(crate) fn cells_of<'w>(alloc: Global, seats: &[Seats<'w>]) -> Result<JoinCells<'w>, Memory>
    ensures { IfOk result
        (λ cells. cells ≡ map (λ (s : SeatsForm). s.cells) (map seats_view seats.now)) }
{
    let mut cells = JoinCells::new(alloc);
    for own in seats {
        cells.push(own.cells)?;
    }
    Ok(cells)
}

/// Those in which they publish the domains of dynamic filters.
pub(crate) fn filter_cells_of<'w>(
    alloc: Global,
    seats: &[Seats<'w>],
) -> Result<FilterCells<'w>, Memory>
    ensures { IfOk result
        (λ cells. cells ≡ map (λ (s : SeatsForm). s.filters) (map seats_view seats.now)) }
{
    let mut cells = FilterCells::new(alloc);
    for own in seats {
        cells.push(own.filters)?;
    }
    Ok(cells)
}
