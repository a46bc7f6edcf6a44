//! What the sieves of joins rest on, and how they come down to scans.
ghost use Rattle.std.specs.Prelude.{◌≡◌, ◌<◌, ℕ, List, [], Contains, Some, get_or, map};
ghost use Rattle.std.specs.List.{range_with_len};
ghost use Rattle.sql_values.specs.declared.relational.JoinKind.TheVariants.{Inner};
ghost use Rattle.sql_values.specs.Cells.{cell};
ghost use Rattle.operator_core.specs.Rows.{Row};
ghost use Rattle.bag_laws.specs.Gather.{gather};
ghost use Rattle.plan_trees.specs.Allowed.{width_of};
ghost use Rattle.column_origins.specs.declared.origin.Origin.{Origin};
ghost use Rattle.column_origins.specs.Origins.{origin_of};
ghost use Rattle.plan_run_laws.specs.RunPlans.{RunPlan, tree_of_run};
ghost use Rattle.plan_run_laws.specs.Stops.{StoppedPipe};
ghost use Rattle.dyn_filter.specs.declared.domain.Domain.{Domain};
ghost use Rattle.dyn_filter.specs.Cells.{AreDomainsOf, IsUnion};
ghost use Rattle.dyn_filter.specs.Domains.{IsDomainOf};
ghost use Rattle.lost_row_laws.specs.Arrivals.{arriving};
ghost use Rattle.lost_row_laws.specs.Domains.{sieve_of};
ghost use Rattle.lost_row_laws.specs.Runs.{AreTyped};
ghost use Rattle.lost_row_laws.specs.Sieves.{Sieve};
ghost use Rattle.lost_row_laws.specs.Stops.{AreSure};
ghost use Rattle.sieve_laws.specs.ComingDown.{ComeDown, HasJoin, ScansApart};
ghost use Rattle.sieve_laws.specs.KnownDomains.{AreKnownOf, JoinFilter, sieves_of};

/// The law that a join is sure of the sieves of its dynamic filters, where each domain that is known is that of the whole
/// right side in all tasks.
pub fn known_domains_are_sure()
    ensures { (on : List (ℕ × ℕ)) (n : ℕ) (right : StoppedPipe) (filters : List JoinFilter)
        → AreKnownOf on n right filters → AreSure on n right (sieves_of on filters) }
{}

/// The law that what is known of all parts of a filter, one for each task, is the domain of the values in all tasks.
pub fn parts_make_the_domain()
    ensures { (n column : ℕ) (rows : ℕ → List Row) (domains : List Domain) (domain : Domain)
        → AreDomainsOf (map (λ (k : ℕ). map (λ (row : Row). cell row column) (rows k))
        (range_with_len 0 n)) domains
        → IsUnion domains domain
        → IsDomainOf (map (λ (row : Row). cell row column) (gather n rows)) domain }
{}

/// The law that a sieve of an inner join arrives at the scan from which its column comes.
pub fn own_sieves_arrive()
    ensures { (own : ℕ → List Sieve) (at : ℕ) (side : RunPlan) (s : Sieve) → Contains (own at) s
        → s.column < width_of (tree_of_run side)
        → (o : Origin) → origin_of (tree_of_run side) s.column ≡ Some o
        → (run : RunPlan) (sieves : List Sieve) → HasJoin run at Inner side
        → Contains (arriving own sieves run o.scan)
        (record { column = o.column; pass = s.pass }) }
{}

/// The law that so does the sieve of each domain that is known of a filter of the join.
pub fn known_domains_arrive()
    ensures { (own : ℕ → List Sieve) (at : ℕ) (on : List (ℕ × ℕ)) (filters : List JoinFilter)
        → own at ≡ sieves_of on filters → (f : JoinFilter) → Contains filters f
        → (domain : Domain) → f.known ≡ Some domain
        → (side : RunPlan) → (get_or on f.pair (0, 0)).0 < width_of (tree_of_run side)
        → (o : Origin) → origin_of (tree_of_run side) (get_or on f.pair (0, 0)).0 ≡ Some o
        → (run : RunPlan) (sieves : List Sieve) → HasJoin run at Inner side
        → Contains (arriving own sieves run o.scan)
        (sieve_of (record { column = o.column; domain = domain })) }
{}

/// The law that where no two scans have one id, what arrives at a scan by its id is what comes down to it, and stands at
/// columns of it.
pub fn arriving_sieves_come_down()
    ensures { (own : ℕ → List Sieve) (run : RunPlan) → AreTyped run → ScansApart run
        → ComeDown own (arriving own [] run) [] run }
{}
