//! How many rows the filters in front of drivers let through.
ghost use Rattle.std.specs.Prelude.{◌≡◌, ◌<◌, ◌≤◌, ℕ, suc, List, All, Bool, true, drop, get_or, length, map, take};
ghost use Rattle.std.specs.List.Sorted.{IsStrictlyIncreasing};
ghost use Rattle.count_laws.specs.Counts.{most_count};
ghost use Rattle.operator_core.specs.Rows.{Row};
ghost use Rattle.operator_core.specs.Stages.{Linked, Steps};
ghost use Rattle.bag_laws.specs.Gather.{gather};
ghost use Rattle.plan_run_laws.specs.Nets.{Lanes, of_tasks};
ghost use Rattle.plan_run_laws.specs.Stops.{AllSet, Flags, Hop};
ghost use Rattle.net_laws.specs.ScanFilters.{AreAlike, IsCountOf, ScanFilter, count_passing, sum_of_drivers, up_to_id};
ghost use Rattle.net_laws.specs.FilterStages.{AllHaveFiltered, HaveFiltered};

use operator_core::Operator;
use std::marker::PhantomData;

/// The law that once filters in front of a driver's stages are done, their source has ended, and of the rows that came the
/// last of them gave at most those that pass each filter that is waited for, and at least those that pass each filter.
pub fn filters_in_front_let_through<O: Operator>(_of: PhantomData<O>)
    ensures { (filters : List ScanFilter) (stages : List O) (came gave : List Row) (over : Bool)
        → HaveFiltered O.Operator filters stages came gave over
        → (over ≡ true) × IsCountOf filters came (length gave) }
{
    operator_core::laws::laws::<O>(PhantomData);
}

/// The law that the first of them are done then, too, and gave what the others took.
pub fn first_filters_are_done<O: Operator>(_of: PhantomData<O>)
    ensures { (filters : List ScanFilter) (stages : List O) (came gave : List Row) (over : Bool)
        → HaveFiltered O.Operator filters stages came gave over
        → (count : ℕ) → (some : List Row)
        × HaveFiltered O.Operator (take count filters) (take count stages) came some over
        × Linked O.Operator (drop count stages) some gave }
{
    operator_core::laws::laws::<O>(PhantomData);
}

/// The law that the last of them gave these rows of some that it took, so that what is known of an operator which took and
/// gave rows is known of it.
pub fn the_last_filter_took_and_gave<O: Operator>(_of: PhantomData<O>)
    ensures { (filters : List ScanFilter) (stages : List O) (came gave : List Row) (over : Bool)
        → HaveFiltered O.Operator filters stages came gave over
        → (place : ℕ) (s : O) → suc place ≡ length stages → s ≡ get_or stages place s
        → (took : List Row) × Steps O.Operator s took gave }
{}

/// The law that what the filters of all drivers of all tasks counted, over a source of which all rows came, is in all at
/// most the rows that pass each filter that is waited for, and at least those that pass each filter.
pub fn filters_count_the_rows<O: Operator>(_of: PhantomData<O>)
    ensures { (filters : List ScanFilter) (n w : ℕ) (stages : ℕ → ℕ → List O)
        (came gave : Lanes) (over : Flags) (counts : ℕ → ℕ → ℕ)
        → AllHaveFiltered O.Operator filters n w stages came gave over counts
        → (rows : List Row)
        → Hop rows (gather n (of_tasks w came)) (AllSet n w over) (Unit {0})
        → length rows ≤ most_count
        → IsCountOf filters rows (sum_of_drivers n w counts) }
{
    operator_core::laws::laws::<O>(PhantomData);
}

/// The law that of filters in the order of their ids those with an id up to that of one are the first ones, with this one
/// as the last.
pub fn filters_up_to_an_id_come_first()
    ensures { (filters : List ScanFilter)
        → IsStrictlyIncreasing (map (λ (f : ScanFilter). f.id) filters)
        → (place : ℕ) (f : ScanFilter) → place < length filters → f ≡ get_or filters place f
        → up_to_id f.id filters ≡ take (suc place) filters }
{}

/// The law that the order of the keys makes no difference to what filters count.
pub fn counts_see_no_order_of_keys()
    ensures counts { (filters others : List ScanFilter) → AreAlike filters others
        → (rows : List Row) (number : ℕ) → IsCountOf filters rows number
        → IsCountOf others rows number }
    ensures up_to { (id : ℕ) (filters others : List ScanFilter) → AreAlike filters others
        → AreAlike (up_to_id id filters) (up_to_id id others) }
{}

/// The law that such a count is exact where each filter is waited for.
pub fn counts_are_exact_where_all_wait()
    ensures { (filters : List ScanFilter) (rows : List Row) (number : ℕ)
        → All (λ (f : ScanFilter). f.waits ≡ true) filters → IsCountOf filters rows number
        → number ≡ count_passing filters rows }
{}
