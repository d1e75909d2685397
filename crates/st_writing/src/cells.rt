ghost use Rattle.std.specs.Prelude.{◌≡◌, ◌≤◌, ℕ, length, map, IfOk};
ghost use Rattle.st_limits.specs.Sums.{is_shared, more, needed, takes_cell};
ghost use Rattle.st_model.specs.Content.{Stretch, mapped_cells};

use st_model::{FsState, NumberMap};
use st_sectors::Stretch;
use st_units::{ItemList, NoMemory};
use std::alloc::Global;

fn cells_of(alloc: Global, mapped: &NumberMap<u64>) -> Result<ItemList<u64>, NoMemory>
    ensures { IfOk result (λ cells. cells ≡ map (λ (e : ℕ × ℕ). e.1) mapped.now) }
{
    let mut cells = ItemList::make(alloc);
    for (_, cell) in mapped.iter() {
        cells.push(*cell)?;
    }
    Ok(cells)
}

/// The cell of each mapping of the pool.
#[tactic(auto, using(crate::proofs::Mappings::more_cells))]
pub(crate) fn mapped_cells(
    alloc: Global,
    filesystems: &[FsState],
) -> Result<ItemList<u64>, NoMemory>
    ensures { IfOk result (λ cells. cells ≡ mapped_cells filesystems.now) }
{
    let mut cells = ItemList::make(alloc);
    for fs in filesystems {
        cells.append(cells_of(alloc, &fs.map)?)?;
    }
    Ok(cells)
}

/// Whether the cell is mapped at more than one place.
fn is_shared(cells: &[u64], cell: u64) -> bool
    ensures { result ≡ is_shared cells.now cell }
{
    let mut count: usize = 0;
    for other in cells {
        if cell == *other {
            count += 1;
        }
    }
    1 < count
}

/// Whether a write to the block takes a fresh cell.
pub(crate) fn takes_cell(mapped: &NumberMap<u64>, cells: &[u64], block: u64) -> bool
    ensures { result ≡ takes_cell mapped.now cells.now block }
{
    match mapped.get(block) {
        Some(cell) => is_shared(cells, *cell),
        None => true,
    }
}

/// How many of the stretches' blocks take a fresh cell.
pub(crate) fn needed(mapped: &NumberMap<u64>, cells: &[u64], stretches: &[Stretch]) -> u64
    ensures needed { result ≡ needed mapped.now cells.now (map (λ (s : Stretch). s.block) stretches.now) }
    ensures few { result ≤ length stretches.now }
{
    let mut count = 0;
    for stretch in stretches {
        if takes_cell(mapped, cells, stretch.block()) {
            count += 1;
        }
    }
    count
}

/// How many of the stretches' blocks aren't mapped.
pub(crate) fn more(mapped: &NumberMap<u64>, stretches: &[Stretch]) -> u64
    ensures more { result ≡ more mapped.now (map (λ (s : Stretch). s.block) stretches.now) }
    ensures few { result ≤ length stretches.now }
{
    let mut count = 0;
    for stretch in stretches {
        if mapped.get(stretch.block()).is_none() {
            count += 1;
        }
    }
    count
}
