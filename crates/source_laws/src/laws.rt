//! What follows from the definitions.
ghost use Rattle.std.specs.Prelude.{◌≡◌, ℕ, ◌<◌, ◌∷◌, [], List, All, Bool, get_or, length, map, true};
ghost use Rattle.sql_values.specs.declared.value.Value.{Value};
ghost use Rattle.driver_ends.specs.Deals.{DealState, KeepsDeal, rows_dealt};
ghost use Rattle.driver_ends.specs.Ends.{local_taken, remote_taken};
ghost use Rattle.driver_ends.specs.Outlets.{OutletState};
ghost use Rattle.driver_ends.specs.Sources.{HasLocalTaken, HasRemoteTaken, IsLocalEnded, IsRemoteEnded, LocalState, RemoteState};
ghost use Rattle.driver_ends.specs.Targets.{HasSent, KeepsTarget, TargetState};
ghost use Rattle.driver_ends.specs.Fetching.{FetchingState, HasFetchTaken, IsFetchEnded, fetch_taken};
ghost use Rattle.bag_laws.specs.Gather.{gather};
ghost use Rattle.relation_laws.specs.Sorts.{IsBeginning};
ghost use Rattle.plan_run_laws.specs.RunPlans.{Output};
ghost use Rattle.plan_run_laws.specs.Runs.{sent};
ghost use Rattle.plan_run_laws.specs.Stops.{Hop};
ghost use Rattle.split_source.specs.Gathered.{AreDistinct, AreWhole};
ghost use Rattle.split_source.specs.Scans.{ScanState};
ghost use Rattle.sql_values.specs.Cells.{cut};
ghost use Rattle.source_laws.specs.Scans.{AreDrained, AreEnded, AreScansOf, rows_scanned, seats_of};
ghost use Rattle.source_laws.specs.Edges.{AreTold, GatherCameBack, KeepsPutter, Putter, SpreadCameBack, output_of, putter_of, putting_seats, rows_for, rows_from, taking_seats};

/// The law that what scans of one table gave, by all seats of its claims, is part of its rows, cut to the columns, and all
/// of them where each scan has ended.
pub fn scans_pass()
    ensures { (rows : List (List Value)) (columns : List ℕ) (size : ℕ) (scans : List ScanState)
        → AreScansOf rows columns size scans → AreDistinct (seats_of scans)
        → AreWhole (seats_of scans) → AreDrained scans
        → Hop (map (cut columns) rows) (rows_scanned scans) (AreEnded scans) (Unit {0}) }
{}

/// The law that what the taker of an edge handed on is part of what its putters were given for it, and all of it
/// where the taker has ended; each of them was then told to finish.
pub fn local_edges_pass()
    ensures { (putters : List Putter) (taker : LocalState) → All KeepsPutter putters
        → GatherCameBack (putting_seats putters) taker.seat → HasLocalTaken taker (local_taken taker)
        → Hop (rows_for putters) (local_taken taker) (IsLocalEnded taker) (AreTold putters) }
{}

/// The law that so it is of an edge between fragments, of which a driver fetches what was put.
pub fn fetched_edges_pass()
    ensures { (putters : List Putter) (taker : FetchingState) → All KeepsPutter putters
        → GatherCameBack (putting_seats putters) taker.local.seat
        → HasFetchTaken taker (fetch_taken taker)
        → Hop (rows_for putters) (fetch_taken taker) (IsFetchEnded taker) (AreTold putters) }
{}

/// The law that what was given of rows of the plan, in order, is part of them, and all of them at the end.
pub fn rows_pass()
    ensures { (given rows : List (List Value)) (ended : Bool) → IsBeginning given rows
        → (ended ≡ true → given ≡ rows) → Hop rows given (ended ≡ true) (Unit {0}) }
{}

/// The law of an edge of many takers, behind a driver that deals out what it took of other putters and was told to
/// finish no sooner than its source had ended: what the takers handed on is part of what the putters were given, and
/// all of it where the takers have ended.
pub fn dealt_edges_pass()
    ensures { (putters : List Putter) (came : List (List Value)) (ended : Bool) (deal : DealState)
        (takers : List RemoteState) → Hop (rows_for putters) came (ended ≡ true) (AreTold putters)
        → rows_dealt deal ≡ came → (deal.is_told ≡ true → ended ≡ true) → KeepsDeal deal
        → SpreadCameBack deal.seat (taking_seats takers)
        → All (λ taker. HasRemoteTaken taker (remote_taken taker)) takers
        → Hop (rows_for putters) (rows_from takers) (All IsRemoteEnded takers) (AreTold putters) }
{}

/// The law that each outlet of a target was given, of the rows that the target was given, those that the plan sends to
/// its task; that an outlet, with whether its target was told to finish, is a putter; and that what is sent
/// of the rows of all tasks is what is sent of each task's.
pub fn outlets_send()
    ensures sent { (target : TargetState) (given : List (List Value)) (n k : ℕ)
        (outlet : OutletState) → KeepsTarget target → HasSent target given
        → length target.outlets ≡ n → k < n
        → rows_for (putter_of target k (get_or target.outlets k outlet) ∷ [])
        ≡ sent (output_of target.kind) n k given }
    ensures putter { (target : TargetState) (k : ℕ) (outlet : OutletState) → KeepsTarget target
        → k < length target.outlets
        → KeepsPutter (putter_of target k (get_or target.outlets k outlet)) }
    ensures tasks { (output : Output) (n k tasks : ℕ) (rows : ℕ → List (List Value))
        → sent output n k (gather tasks rows) ≡ gather tasks (λ j. sent output n k (rows j)) }
{}
