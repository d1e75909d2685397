ghost use Rattle.std.specs.Prelude.{◌≡◌, ◌+◌, ◌≤◌, ◌<◌, map, length, IfSome, slice_get};
ghost use Rattle.std.specs.List.{AllByRecursion, sum_by};
ghost use Rattle.st_wants.specs.Wants.{writes};
ghost use Rattle.st_book.specs.Effects.{cells_left, cells_given, table_left, table_given};
ghost use Rattle.st_book.specs.inner.Sorting.{TakesOrPasses};

use crate::part::Cells;
use st_model::{Board, Cell, Named};
use st_wants::Want;

/// Takes the cell at a place over into the part, where the want lets its holder change the pool; else passes it over.
/// It gives the place of the next cell.
fn take_or_pass<C: Cell>(cells: &mut Cells<C>, part: &mut Cells<C>, want: &Want, i: usize) -> usize
    requires inside { i < length cells.old.items }
    requires few { length cells.old.items ≤ 16 }
    requires room { 0 < part.old.room }
    ensures cell { IfSome (slice_get cells.old.items i) (λ x. TakesOrPasses (writes want.now (C.state x).name) x i cells.old.items cells.new.items part.old.items part.new.items result) }
    ensures places { length cells.new.items + cells.new.room ≡ length cells.old.items + cells.old.room }
    ensures part_places { length part.old.items + part.old.room ≤ length part.new.items + part.new.room }
{
    if want.writes(cells.at(i).name()) {
        part.put(cells.take_at(i));
        return i;
    }
    i + 1
}

/// Takes the cells out that a want lets its holder change.
pub(crate) fn take_cells<C: Cell>(cells: &mut Cells<C>, want: &Want, room: Cells<C>) -> Cells<C>
    requires empty { length room.items ≡ 0 }
    requires room { 16 ≤ room.room }
    requires few { length cells.old.items ≤ 16 }
    requires places { 16 ≤ length cells.old.items + cells.old.room }
    ensures home { map C.state cells.new.items ≡ cells_left want.now (map C.state cells.old.items) }
    ensures part { map C.state result.items ≡ cells_given want.now (map C.state cells.old.items) }
    ensures few { length cells.new.items ≤ 16 }
    ensures places { 16 ≤ length cells.new.items + cells.new.room }
    ensures part_places { 16 ≤ length result.items + result.room }
    ensures kept { AllByRecursion C.is_kept cells.old.items → AllByRecursion C.is_kept result.items × AllByRecursion C.is_kept cells.new.items }
    ensures faults { sum_by C.fault_count cells.new.items + sum_by C.fault_count result.items ≡ sum_by C.fault_count cells.old.items }
{
    let mut part = room;
    let mut i = 0;
    for _ in 0..cells.len() {
        i = take_or_pass(cells, &mut part, want, i);
    }
    part
}

/// Takes the table out, where a want lets its holder change it.
pub(crate) fn take_table<T>(table: &mut Option<T>, want: &Want) -> Option<T>
    ensures home { table.new ≡ table_left want.now table.old }
    ensures part { result ≡ table_given want.now table.old }
{
    if want.takes_table() {
        table.take()
    } else {
        None
    }
}
