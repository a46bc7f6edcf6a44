ghost use Rattle.std.specs.Prelude.{◌≡◌, ◌<◌, ◌≤◌, ◌^◌, IfOk, MatchResult, length, map, None, Some};
ghost use Rattle.run_ports.specs.Reading.{AreBytesOf};
ghost use Rattle.plan_docs.specs.Plans.{plan_view};
ghost use Rattle.command_line.specs.Words.{asked, asked_file, file_of};
ghost use Rattle.col_pages.specs.Fits.{AllFit};
ghost use Rattle.task_executor.specs.Shapes.{AreFew};
ghost use Rattle.sql_values.specs.Columns.{kinds};
ghost use Rattle.tree_evaluator.specs.Fits.{TablesFit};
ghost use Rattle.task_executor.specs.Tables.{HaveColumns, WasRead};
ghost use Rattle.query_runner.specs.Jobs.{AreTablesAsked, first_without_file, IsPlanAsked, IsTableAsked};
ghost use Rattle.tree_evaluator.specs.Stops.{rows_of_table};
ghost use Rattle.query_runner.specs.Loading.{FilesFail, PlanFails, name_path, ReadFails, TableFails, TablesFail};

use crate::status::Status;
use command_line::{Job, TableFile};
use csv_tables::{TableFault, rows_of_a_table_are_few, rows_of_a_table_fit};
use json_paths::{Key, Step, pointer_of};
use plan_reader::{Plan, PlanFault, TableDoc, read_plan};
use run_ports::{FileFault, Files};
use sql_values::{Memory, Table};
use std::alloc::Global;
use std::thread::Threads;
use table_parts::{part_count, read_table_in_parts};

/// How many rows a table may have.
pub const ROW_LIMIT: u32 = 16_000_000;

/// Reads a file, which is number `file` of the command line.
fn read_file<F: Files>(
    alloc: Global,
    files: &mut F,
    name: &str,
    file: u32,
) -> Result<Vec<u8>, Status>
    ensures same { F.holds files.new ≡ F.holds files.old }
    ensures later { F.faults files.old ≤ F.faults files.new }
    ensures answer { MatchResult result
        (λ bytes. AreBytesOf (F.holds files.old) name.now bytes.items)
        (ReadFails file (F.faults files.old) (F.faults files.new) (F.refused files.new) name.now) }
{
    match files.read(alloc, name) {
        Ok(bytes) => Ok(bytes),
        Err(FileFault::Failed) => Err(Status::ReadFault { file }),
        Err(FileFault::Memory) => Err(Status::Memory),
    }
}

/// Reads the plan that the arguments name.
pub fn load_plan<F: Files>(alloc: Global, job: &Job<'_>, files: &mut F) -> Result<Plan, Status>
    ensures read { IfOk result (λ plan. WasRead (plan_view plan)) }
    ensures same { F.holds files.new ≡ F.holds files.old }
    ensures later { F.faults files.old ≤ F.faults files.new }
    ensures answer { MatchResult result
        (λ plan. IsPlanAsked (F.holds files.old) (asked job.now) (plan_view plan))
        (PlanFails (F.holds files.old) (asked job.now)
        (F.faults files.old) (F.faults files.new) (F.refused files.new)) }
{
    let bytes = read_file(alloc, files, job.plan(), 0)?;
    match read_plan(alloc, bytes.as_slice()) {
        Ok(plan) => Ok(plan),
        Err(PlanFault::Refused { code, path }) => Err(Status::PlanRefused { code, path }),
        Err(PlanFault::Memory) => Err(Status::Memory),
    }
}

/// The files that the arguments name for the tables of a plan.
pub fn files_of<'a>(
    alloc: Global,
    job: &Job<'a>,
    docs: &[TableDoc],
) -> Result<Vec<TableFile<'a>>, Status>
    ensures all { IfOk result (λ _. first_without_file (asked job.now) docs.now ≡ None) }
    ensures files { MatchResult result
        (λ found. map (λ file. Some (asked_file file)) found.items
        ≡ map (λ doc. file_of doc.name (asked job.now).files) docs.now)
        (FilesFail (asked job.now) docs.now) }
{
    let mut found = Vec::with_capacity(alloc, docs.len())?;
    for table in 0..docs.len() {
        match job.file_of(docs[table].name.as_str()) {
            Some(file) => found.push(file)?,
            None => return Err(has_no_file(alloc, job, docs, table)?),
        }
    }
    Ok(found)
}

/// The refusal of a plan in which this table is the first without a file.
fn has_no_file(
    alloc: Global,
    job: &Job<'_>,
    docs: &[TableDoc],
    table: usize,
) -> Result<Status, Memory>
    requires { first_without_file (asked job.now) docs.now ≡ Some table }
    ensures { IfOk result (FilesFail (asked job.now) docs.now) }
{
    let path = [
        Step::Key(Key::Tables),
        Step::Index(table),
        Step::Key(Key::Name),
    ];
    Ok(Status::PlanRefused {
        code: 4,
        path: pointer_of(alloc, &path)?,
    })
}

/// Reads the tables of a plan, each from its file and with the workers that the arguments ask for.
#[tactic(auto, using(crate::proofs::TableLemmas::images_at, crate::proofs::TableLemmas::item_there, crate::proofs::TableLemmas::one_table_more, crate::proofs::TableLemmas::table_fails))]
pub fn load_tables<R: Threads + Sync, F: Files>(
    rt: &R,
    alloc: Global,
    job: &Job<'_>,
    docs: &[TableDoc],
    found: &[TableFile<'_>],
    files: &mut F,
) -> Result<Vec<Table>, Status>
    requires all { first_without_file (asked job.now) docs.now ≡ None }
    requires files { map (λ file. Some (asked_file file)) found.now
        ≡ map (λ doc. file_of doc.name (asked job.now).files) docs.now }
    ensures columns { IfOk result (λ tables. HaveColumns docs.now tables.items) }
    ensures fits { IfOk result (λ tables. TablesFit tables.items) }
    ensures few { IfOk result (λ tables. AreFew tables.items) }
    ensures same { F.holds files.new ≡ F.holds files.old }
    ensures later { F.faults files.old ≤ F.faults files.new }
    ensures answer { MatchResult result
        (λ tables. AreTablesAsked (F.holds files.old) (asked job.now) docs.now
        (map rows_of_table tables.items))
        (TablesFail (F.holds files.old) (asked job.now) docs.now
        (F.faults files.old) (F.faults files.new) (F.refused files.new)) }
{
    let mut tables = Vec::with_capacity(alloc, docs.len())?;
    for place in 0..docs.len().min(found.len()) {
        let table = load_table(rt, alloc, job, &docs[place], place, found[place], files)?;
        tables.push(table)?;
    }
    Ok(tables)
}

/// Reads one table, which has this place in the plan.
fn load_table<R: Threads + Sync, F: Files>(
    rt: &R,
    alloc: Global,
    job: &Job<'_>,
    doc: &TableDoc,
    place: usize,
    found: TableFile<'_>,
    files: &mut F,
) -> Result<Table, Status>
    requires { file_of doc.now.name (asked job.now).files ≡ Some (asked_file found) }
    ensures columns { IfOk result (λ table. table.columns ≡ doc.now.columns) }
    ensures fits { IfOk result (λ table. AllFit (kinds table.columns) table.rows) }
    ensures few { IfOk result (λ table. length table.rows < 2 ^ 32) }
    ensures same { F.holds files.new ≡ F.holds files.old }
    ensures later { F.faults files.old ≤ F.faults files.new }
    ensures answer { MatchResult result
        (λ table. IsTableAsked (F.holds files.old) (asked job.now) doc.now table.rows)
        (TableFails (F.holds files.old) (asked job.now) doc.now place
        (F.faults files.old) (F.faults files.new) (F.refused files.new)) }
{
    let number = u32::try_from(found.place.saturating_add(1)).unwrap_or(u32::MAX);
    let bytes = read_file(alloc, files, found.file, number)?;
    let columns = doc.columns.as_slice();
    let parts = part_count(job.workers, bytes.len());
    match read_table_in_parts(rt, alloc, parts, columns, ROW_LIMIT, bytes.as_slice()) {
        Ok(table) => {
            rows_of_a_table_fit(columns, ROW_LIMIT, bytes.as_slice(), &table.rows);
            rows_of_a_table_are_few(columns, ROW_LIMIT, bytes.as_slice(), &table.rows);
            Ok(table)
        }
        Err(TableFault::Refused { row, column, why }) => Err(Status::TableRefused {
            table: u32::try_from(place).unwrap_or(u32::MAX),
            row,
            column,
            why,
        }),
        Err(TableFault::Memory) => Err(Status::Memory),
    }
}
