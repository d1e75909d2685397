ghost use Rattle.std.specs.Prelude.{◌≡◌, ◌<◌, ℕ, Bool, true, length, map, nat_lt, IfOk};
ghost use Rattle.std.specs.Bool.{Decides};
ghost use Rattle.std.specs.List.{list_all, All};
ghost use Rattle.st_flexrec.specs.Cells.{has_lower_number, is_cell_row, place_of, HaveOwnPlaces, AllAreNamed, CellsFit};
ghost use Rattle.st_flexrec.specs.OrderLaws.{numbers_go_on, numbers_rise_on};

use crate::order::{InOrder, rises};
use crate::rows::{CellRow, MapRow};
use st_units::NoMemory;
use std::alloc::Global;

impl InOrder for CellRow {
    ghost comes_before = { has_lower_number };

    ghost goes_on = { numbers_go_on };

    fn is_before(&self, later: &CellRow) -> bool {
        self.cell < later.cell
    }
}

impl InOrder for u32 {
    ghost comes_before = { nat_lt };

    ghost goes_on = { numbers_rise_on };

    fn is_before(&self, later: &u32) -> bool {
        *self < *later
    }
}

/// Whether the rows keep their conditions, where this is the next cell and these are the mappings.
pub fn cells_fit(
    alloc: Global,
    next: u64,
    mappings: &[MapRow],
    rows: &[CellRow],
) -> Result<bool, NoMemory>
    requires { All (λ m. m.cell < length rows.now) mappings.now }
    ensures { IfOk result (λ fit. Decides fit (CellsFit next mappings.now rows.now)) }
{
    let fit = rises(rows)
        && each_fits(next, rows)
        && are_named(alloc, rows.len(), mappings)?
        && have_own_places(alloc, rows)?;
    Ok(fit)
}

fn each_fits(next: u64, rows: &[CellRow]) -> bool
    ensures { result ≡ list_all (is_cell_row next) rows.now }
{
    rows.iter().all(|row| is_cell_row(next, row))
}

fn is_cell_row(next: u64, row: &CellRow) -> bool
    ensures { result ≡ is_cell_row next row.now }
{
    1 <= row.cell && row.cell < next
}

/// Each mapping marks the cell that it names.
fn are_named(alloc: Global, cells: usize, mappings: &[MapRow]) -> Result<bool, NoMemory>
    requires { All (λ m. m.cell < cells) mappings.now }
    ensures { IfOk result (λ named. Decides named (AllAreNamed cells mappings.now)) }
{
    let mut marks = vec![in alloc; false; cells]?;
    for mapping in mappings {
        marks[mapping.cell as usize] = true;
    }
    Ok(marks.iter().all(|mark| *mark))
}

/// The places are sorted, so that equal ones are neighbours.
fn have_own_places(alloc: Global, rows: &[CellRow]) -> Result<bool, NoMemory>
    ensures { IfOk result (λ own. Decides own (HaveOwnPlaces rows.now)) }
{
    let mut places = places_of(alloc, rows)?;
    places.sort_unstable();
    Ok(rises(&places))
}

fn places_of(alloc: Global, rows: &[CellRow]) -> Result<Vec<u32>, NoMemory>
    ensures { IfOk result (λ places. places.items ≡ map place_of rows.now) }
{
    let mut places = Vec::with_capacity(alloc, rows.len())?;
    for row in rows {
        places.push(row.place)?;
    }
    Ok(places)
}
