//! What the drivers of a layout share.
ghost use Rattle.std.specs.Prelude.{◌≡◌, ◌<◌, IfOk, flat_map, map};
ghost use Rattle.plan_layout.specs.Pipes.{pipe_view};
ghost use Rattle.plan_wiring.specs.Bells.{AreNumbers};
ghost use Rattle.plan_wiring.specs.Handed.{AreUnused};
ghost use Rattle.plan_wiring.specs.Shares.{share_of, shares_of};
ghost use Rattle.plan_wiring.specs.Wirings.{IsWiringOf, bells_of, share_view};

use crate::bells::Bells;
use crate::shared::{Shared, cells_of, claims_of, filters_of, gathers_of, spreads_of};
use plan_layout::{Layout, Pipe};
use sql_values::{Memory, Table};
use std::alloc::Global;

/// What the drivers of a layout share, pipe by pipe.
#[derive(Drop)]
pub struct Wiring {
    pub pipes: Vec<Shared>,
    /// How many bells there are: they have the numbers below.
    pub bells: u32,
}

impl Wiring {
    /// That of a layout over the tables of its plan, which are read in splits of this size.
    #[tactic(auto, using(crate::proofs::UnusedLemmas::unused_as_made))]
    pub fn of(
        alloc: Global,
        layout: &Layout<'_>,
        tables: &[Table],
        split: u32,
    ) -> Result<Wiring, Memory>
        requires { 0 < split }
        ensures wired { IfOk result
            (IsWiringOf (map pipe_view layout.now.pipes.items) tables.now split) }
        ensures unused { IfOk result (λ wiring. AreUnused (map share_view wiring.pipes.items)) }
    {
        let mut bells = Bells { next: 0 };
        let pipes = shares_of(alloc, layout.pipes.as_slice(), tables, split, &mut bells)?;
        Ok(Wiring {
            pipes,
            bells: bells.next,
        })
    }
}

fn shares_of(
    alloc: Global,
    layout: &[Pipe<'_>],
    tables: &[Table],
    split: u32,
    bells: &mut Bells,
) -> Result<Vec<Shared>, Memory>
    requires { 0 < split }
    ensures are { IfOk result (λ pipes. map share_view pipes.items
        ≡ shares_of (map pipe_view layout.now) tables.now split 0 (map pipe_view layout.now)) }
    ensures bells { IfOk result
        (λ pipes. AreNumbers bells.old.next (flat_map bells_of pipes.items) bells.new.next) }
{
    let mut pipes = Vec::new(alloc);
    for own in 0..layout.len() {
        let pipe = &layout[own];
        pipes.push(share_of(alloc, layout, own, pipe, tables, split, bells)?)?;
    }
    Ok(pipes)
}

/// What the pipe at a place has.
fn share_of(
    alloc: Global,
    layout: &[Pipe<'_>],
    own: usize,
    pipe: &Pipe<'_>,
    tables: &[Table],
    split: u32,
    bells: &mut Bells,
) -> Result<Shared, Memory>
    requires { 0 < split }
    ensures is { IfOk result (λ shared. share_view shared
        ≡ share_of (map pipe_view layout.now) tables.now split own (pipe_view pipe.now)) }
    ensures bells { IfOk result
        (λ shared. AreNumbers bells.old.next (bells_of shared) bells.new.next) }
{
    let claims = claims_of(alloc, tables, split, pipe)?;
    let gathers = gathers_of(alloc, layout, own, pipe, bells)?;
    let spreads = spreads_of(alloc, pipe, bells)?;
    let cells = cells_of(alloc, pipe, bells)?;
    let filters = filters_of(alloc, pipe, bells)?;
    Ok(Shared {
        claims,
        gathers,
        spreads,
        cells,
        filters,
    })
}
