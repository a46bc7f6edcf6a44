//! A scan of a table: the rows of the splits that its seat draws, in pages.
ghost use Rattle.std.specs.Prelude.{◌≡◌, ◌++◌, ◌^◌, ◌<◌, ◌≤◌, true, false, None, length, All};
ghost use Rattle.std.specs.Prelude.{IfOk, IfSome, IsNone, OnErr};
ghost use Rattle.split_source.specs.Splits.{split_count};
ghost use Rattle.split_source.specs.Scans.{types_at, given, AreReadable, GaveNext, HasGivenAll};

use crate::claim_seat::ClaimSeat;
use crate::splits::split_range;
use col_pages::Page;
use sql_values::{Memory, SqlType, Table};
use std::alloc::Global;
use std::marker::Model;

/// Gives some columns of the rows of the splits that its seat draws, each split in pages.
#[derive(Drop)]
pub struct ScanSource<'w> {
    alloc: Global,
    table: &'w Table,
    columns: Vec<u32>,
    size: u32,
    page: u32,
    seat: ClaimSeat<'w>,
    /// The next row of the current split, and the split's end.
    low: u32,
    high: u32,
}

impl<'w> Model for ScanSource<'w> {
    ghost use Rattle.split_source.specs.Scans.{ScanState};

    ghost Value = { ScanState };

    ghost use Rattle.split_source.specs.InScanSource.{scan_view, IsScan};

    ghost view = { scan_view };

    ghost invariant = { IsScan };
}

impl<'w> ScanSource<'w> {
    /// A scan of these columns in splits of `size` rows and pages of at most `page`.
    pub fn new(
        alloc: Global,
        table: &'w Table,
        columns: Vec<u32>,
        size: u32,
        page: u32,
        seat: ClaimSeat<'w>,
    ) -> ScanSource<'w>
        requires size { 0 < size }
        requires page { (0 < page) × (page ≤ 8192) }
        requires few { length table.now.rows < 2 ^ 32 }
        requires seat { seat.claims.of.count ≡ split_count (length table.now.rows) size }
        requires some { 0 < length columns.items }
        requires columns { All (λ c. c < length table.now.columns) columns.items }
        requires fits { AreReadable table.now.columns columns.items table.now.rows }
        ensures { result ≡ record { rows = table.now.rows; columns = columns.items; types = types_at table.now.columns columns.items; size = size; page = page; seat = seat.entry; left = 0 } }
    {
        ScanSource {
            alloc,
            table,
            columns,
            size,
            page,
            seat,
            low: 0,
            high: 0,
        }
    }

    /// Whether its seat met the end. No row is left then.
    pub fn is_ended(&self) -> bool
        ensures value { result ≡ self.now.seat.is_ended }
        ensures over { result ≡ true → self.now.left ≡ 0 }
    {
        let _left = self.high - self.low;
        self.seat.is_ended()
    }

    /// The next page of the claimed splits, with at least one row. None comes once the seat met the
    /// end, and from then on.
    pub fn next(&mut self) -> Result<Option<Page>, Memory>
        ensures same { self.new ≡ record self.old { seat = self.new.seat; left = self.new.left } }
        ensures seat { self.new.seat.claims ≡ self.old.seat.claims }
        ensures page { IfOk result (λ o. IfSome o (λ p. GaveNext self.old p.rows self.new)) }
        ensures types { IfOk result (λ o. IfSome o (λ p. p.types ≡ self.old.types)) }
        ensures going { IfOk result (λ o. IfSome o (λ p. (self.old.seat.is_ended ≡ false)
            × (self.new.seat.is_ended ≡ false))) }
        ensures ended { self.old.seat.is_ended ≡ true → (result ≡ Ok None) × (self.new ≡ self.old) }
        ensures none { IfOk result (λ o. IsNone o → HasGivenAll self.old self.new) }
        ensures err { OnErr result (given self.new ≡ given self.old) }
    {
        if !self.advance() {
            return Ok(None);
        }
        Ok(Some(self.cut_page()?))
    }

    /// Cuts the next page out of the current split.
    fn cut_page(&mut self) -> Result<Page, Memory>
        requires { 0 < self.old.left }
        ensures same { self.new ≡ record self.old { left = self.new.left } }
        ensures page { IfOk result (λ p. given self.new ≡ given self.old ++ p.rows) }
        ensures types { IfOk result (λ p. p.types ≡ self.old.types) }
        ensures some { IfOk result (λ p. (0 < length p.rows) × (length p.rows ≤ self.old.page)) }
        ensures err { OnErr result (self.new ≡ self.old) }
    {
        let high = self.low + self.page.min(self.high - self.low);
        let types = types_of(self.alloc, self.table, &self.columns)?;
        let page = Page::of_rows(
            self.alloc,
            &self.table.rows,
            &types,
            &self.columns,
            self.low as usize,
            high as usize,
        )?;
        self.low = high;
        Ok(page)
    }

    /// Goes to a split with rows to be given, and says whether there is one.
    fn advance(&mut self) -> bool
        ensures same { self.new ≡ record self.old { seat = self.new.seat; left = self.new.left } }
        ensures seat { self.new.seat.claims ≡ self.old.seat.claims }
        ensures given { given self.new ≡ given self.old }
        ensures found { result ≡ true → (0 < self.new.left) × (self.old.seat.is_ended ≡ false)
            × (self.new.seat.is_ended ≡ false) }
        ensures ended { self.old.seat.is_ended ≡ true → (result ≡ false) × (self.new ≡ self.old) }
        ensures none { result ≡ false → (self.new.left ≡ 0) × (self.new.seat.is_ended ≡ true) }
    {
        if self.low < self.high {
            return true;
        }
        self.begin()
    }

    /// Claims the next split, and says whether there is one.
    fn begin(&mut self) -> bool
        requires { self.old.left ≡ 0 }
        ensures same { self.new ≡ record self.old { seat = self.new.seat; left = self.new.left } }
        ensures seat { self.new.seat.claims ≡ self.old.seat.claims }
        ensures given { given self.new ≡ given self.old }
        ensures found { result ≡ true → (0 < self.new.left) × (self.old.seat.is_ended ≡ false)
            × (self.new.seat.is_ended ≡ false) }
        ensures ended { self.old.seat.is_ended ≡ true → (result ≡ false) × (self.new ≡ self.old) }
        ensures none { result ≡ false → (self.new.left ≡ 0) × (self.new.seat.is_ended ≡ true) }
    {
        let Some(number) = self.seat.claim() else {
            return false;
        };
        let (low, high) = split_range(self.table.rows.len() as u32, self.size, number);
        self.low = low;
        self.high = high;
        true
    }

    /// Gives the seat back, as it stands.
    pub fn into_seat(self) -> ClaimSeat<'w>
        ensures { result ≡ self.entry.seat }
    {
        let ScanSource { seat, .. } = self;
        seat
    }
}

/// The types of some columns of a table.
fn types_of(alloc: Global, table: &Table, columns: &[u32]) -> Result<Vec<SqlType>, Memory>
    requires { All (λ c. c < length table.now.columns) columns.now }
    ensures { IfOk result (λ types. types.items ≡ types_at table.now.columns columns.now) }
{
    let mut types = Vec::with_capacity(alloc, columns.len())?;
    for column in columns.iter() {
        types.push(table.columns.as_slice()[*column as usize].kind)?;
    }
    Ok(types)
}
