ghost use Rattle.std.specs.Prelude.{◌≡◌, ◌+◌, ◌≤◌, ◌<◌, ◌∷◌, ◌++◌, true, false, map, length, bytes_eq, option_map, Some, None, IfSome, []};
ghost use Rattle.std.specs.List.{AllByRecursion, IsDistinct, sum_by};
ghost use Rattle.st_model.specs.Parts.{shown_table};
ghost use Rattle.st_model.specs.Shown.{pool_info};
ghost use Rattle.st_model.specs.Pieces.{AreNamedApart, info_at};
ghost use Rattle.st_book.specs.Effects.{renewed, all_renewed};

use crate::part::{Cells, InfoList};
use crate::showing::info_place;
use st_model::{Board, Cell, Named};
use st_units::{Name, Shared};
use std::mem;

/// Keeps a newer info in place of the first of its name.
fn put_info<C: Cell>(infos: &mut InfoList<C::Info>, info: Shared<C::Info>)
    ensures infos { map C.shows infos.new.items ≡ renewed (C.shows info) (map C.shows infos.old.items) }
    ensures len { length infos.new.items ≡ length infos.old.items }
    ensures room { infos.new.room ≡ infos.old.room }
{
    if let Some(i) = info_place::<C>(infos.items(), info.value().name()) {
        infos.replace(i, info);
    }
}

/// Takes the first info of a name out.
fn take_info<C: Cell>(infos: &mut InfoList<C::Info>, name: &Name) -> Option<Shared<C::Info>>
    ensures found { option_map C.shows result ≡ info_at name.now (map C.shows infos.old.items) }
    ensures others { (n : _) → bytes_eq name.now n ≡ false → info_at n (map C.shows infos.new.items) ≡ info_at n (map C.shows infos.old.items) }
    ensures places { length infos.new.items + infos.new.room ≡ length infos.old.items + infos.old.room }
{
    match info_place::<C>(infos.items(), name) {
        Some(i) => Some(infos.take_at(i)),
        None => None,
    }
}

/// Takes a table's spare over, where it has one.
pub(crate) fn renew_table<T: Board>(kept: &mut Shared<T::Info>, table: &mut T)
    ensures info { (T.has_spare table.old ≡ false → T.shows kept.old ≡ shown_table (T.stands table.old)) → T.shows kept.new ≡ shown_table (T.stands table.old) }
    ensures state { T.stands table.new ≡ T.stands table.old }
    ensures test { T.is_kept table.old → T.is_kept table.new }
    ensures faults { T.fault_count table.new ≡ T.fault_count table.old }
    ensures slack { T.slack table.new ≡ T.slack table.old }
{
    if let Some(info) = table.info() {
        *kept = info;
    }
}

/// Takes a cell's spare over in place of the info of its name.
fn renew<C: Cell>(infos: &mut InfoList<C::Info>, cell: &mut C)
    ensures infos { (C.has_spare cell.old ≡ false → info_at (C.named cell.old) (map C.shows infos.old.items) ≡ Some (pool_info (C.state cell.old)))
        → map C.shows infos.new.items ≡ renewed (pool_info (C.state cell.old)) (map C.shows infos.old.items) }
    ensures len { length infos.new.items ≡ length infos.old.items }
    ensures room { infos.new.room ≡ infos.old.room }
    ensures state { C.state cell.new ≡ C.state cell.old }
    ensures test { C.is_kept cell.old → C.is_kept cell.new }
    ensures faults { C.fault_count cell.new ≡ C.fault_count cell.old }
{
    if let Some(info) = cell.info() {
        put_info::<C>(infos, info);
    }
}

/// Puts a cell with those at home, and its newer info in place of the older one.
fn bring_renewed<C: Cell>(cells: &mut Cells<C>, infos: &mut InfoList<C::Info>, cell: C)
    requires { 0 < cells.old.room }
    ensures home { map C.state cells.new.items ≡ map C.state cells.old.items ++ C.state cell ∷ [] }
    ensures infos { (C.has_spare cell ≡ false → info_at (C.named cell) (map C.shows infos.old.items) ≡ Some (pool_info (C.state cell)))
        → map C.shows infos.new.items ≡ renewed (pool_info (C.state cell)) (map C.shows infos.old.items) }
    ensures len { length infos.new.items ≡ length infos.old.items }
    ensures room { infos.new.room ≡ infos.old.room }
    ensures cells_len { length cells.new.items ≡ length cells.old.items + 1 }
    ensures places { length cells.old.items + cells.old.room ≤ length cells.new.items + cells.new.room }
    ensures test { AllByRecursion C.is_kept cells.old.items → C.is_kept cell → AllByRecursion C.is_kept cells.new.items }
    ensures faults { sum_by C.fault_count cells.new.items ≡ sum_by C.fault_count cells.old.items + C.fault_count cell }
{
    let mut cell = cell;
    renew(infos, &mut cell);
    cells.put(cell);
}

/// Puts the cells of a part with those at home, and their newer infos in place of the older ones.
pub(crate) fn bring_some<C: Cell>(
    cells: &mut Cells<C>,
    infos: &mut InfoList<C::Info>,
    part: Cells<C>,
)
    requires fits { length cells.old.items + length part.items ≤ 16 }
    requires places { 16 ≤ length cells.old.items + cells.old.room }
    ensures home { map C.state cells.new.items ≡ map C.state cells.old.items ++ map C.state part.items }
    ensures infos { AllByRecursion (λ c. C.has_spare c ≡ false → info_at (C.named c) (map C.shows infos.old.items) ≡ Some (pool_info (C.state c))) part.items
        → AreNamedApart (map C.state part.items) → map C.shows infos.new.items ≡ all_renewed (map pool_info (map C.state part.items)) (map C.shows infos.old.items) }
    ensures len { length infos.new.items ≡ length infos.old.items }
    ensures room { infos.new.room ≡ infos.old.room }
    ensures few { length cells.new.items ≤ 16 }
    ensures places { 16 ≤ length cells.new.items + cells.new.room }
    ensures test { AllByRecursion C.is_kept cells.old.items → AllByRecursion C.is_kept part.items → AllByRecursion C.is_kept cells.new.items }
    ensures faults { sum_by C.fault_count cells.new.items ≡ sum_by C.fault_count cells.old.items + sum_by C.fault_count part.items }
{
    let mut part = part;
    for _ in 0..part.len() {
        let cell = part.take_at(0);
        bring_renewed(cells, infos, cell);
    }
    part.finish();
}

/// A cell's spare, or else the info of its name that was kept.
fn newest_info<C: Cell>(infos: &mut InfoList<C::Info>, cell: &mut C) -> Option<Shared<C::Info>>
    ensures info { (C.has_spare cell.old ≡ false → info_at (C.named cell.old) (map C.shows infos.old.items) ≡ Some (pool_info (C.state cell.old)))
        → option_map C.shows result ≡ Some (pool_info (C.state cell.old)) }
    ensures others { (n : _) → bytes_eq (C.named cell.old) n ≡ false → info_at n (map C.shows infos.new.items) ≡ info_at n (map C.shows infos.old.items) }
    ensures places { length infos.new.items + infos.new.room ≡ length infos.old.items + infos.old.room }
    ensures state { C.state cell.new ≡ C.state cell.old }
    ensures test { C.is_kept cell.old → C.is_kept cell.new }
    ensures faults { C.fault_count cell.new ≡ C.fault_count cell.old }
{
    match cell.info() {
        Some(info) => Some(info),
        None => take_info::<C>(infos, cell.name()),
    }
}

/// Puts a cell with those at home, and its newest info with the fresh ones.
fn bring_next<C: Cell>(
    cells: &mut Cells<C>,
    infos: &mut InfoList<C::Info>,
    fresh: &mut InfoList<C::Info>,
    cell: C,
)
    requires room { 0 < cells.old.room }
    requires fresh_room { 0 < fresh.old.room }
    ensures home { map C.state cells.new.items ≡ map C.state cells.old.items ++ C.state cell ∷ [] }
    ensures len { length cells.new.items ≡ length cells.old.items + 1 }
    ensures places { length cells.old.items + cells.old.room ≤ length cells.new.items + cells.new.room }
    ensures fresh { (C.has_spare cell ≡ false → info_at (C.named cell) (map C.shows infos.old.items) ≡ Some (pool_info (C.state cell)))
        → map C.shows fresh.new.items ≡ map C.shows fresh.old.items ++ pool_info (C.state cell) ∷ [] }
    ensures fresh_len { length fresh.new.items ≤ length fresh.old.items + 1 }
    ensures fresh_places { length fresh.old.items + fresh.old.room ≤ length fresh.new.items + fresh.new.room }
    ensures others { (n : _) → bytes_eq (C.named cell) n ≡ false → info_at n (map C.shows infos.new.items) ≡ info_at n (map C.shows infos.old.items) }
    ensures info_places { length infos.new.items + infos.new.room ≡ length infos.old.items + infos.old.room }
    ensures test { AllByRecursion C.is_kept cells.old.items → C.is_kept cell → AllByRecursion C.is_kept cells.new.items }
    ensures faults { sum_by C.fault_count cells.new.items ≡ sum_by C.fault_count cells.old.items + C.fault_count cell }
{
    let mut cell = cell;
    if let Some(info) = newest_info(infos, &mut cell) {
        fresh.put(info);
    }
    cells.put(cell);
}

/// Puts the cells of a part with those at home, and makes the infos anew, of these cells alone.
pub(crate) fn bring_all<C: Cell>(
    cells: &mut Cells<C>,
    infos: &mut InfoList<C::Info>,
    fresh: &mut InfoList<C::Info>,
    part: Cells<C>,
)
    requires fits { length cells.old.items + length part.items ≤ 16 }
    requires places { 16 ≤ length cells.old.items + cells.old.room }
    requires empty { length fresh.old.items ≡ 0 }
    requires room { 16 ≤ fresh.old.room }
    requires info_places { 16 ≤ length infos.old.items + infos.old.room }
    ensures home { map C.state cells.new.items ≡ map C.state cells.old.items ++ map C.state part.items }
    ensures infos { AllByRecursion (λ c. C.has_spare c ≡ false → info_at (C.named c) (map C.shows infos.old.items) ≡ Some (pool_info (C.state c))) part.items
        → AreNamedApart (map C.state part.items) → map C.shows infos.new.items ≡ map pool_info (map C.state part.items) }
    ensures few { length infos.new.items ≤ 16 }
    ensures few_cells { length cells.new.items ≤ 16 }
    ensures info_places { 16 ≤ length infos.new.items + infos.new.room }
    ensures empty { length fresh.new.items ≡ 0 }
    ensures room { 16 ≤ fresh.new.room }
    ensures places { 16 ≤ length cells.new.items + cells.new.room }
    ensures test { AllByRecursion C.is_kept cells.old.items → AllByRecursion C.is_kept part.items → AllByRecursion C.is_kept cells.new.items }
    ensures faults { sum_by C.fault_count cells.new.items ≡ sum_by C.fault_count cells.old.items + sum_by C.fault_count part.items }
{
    let mut part = part;
    for _ in 0..part.len() {
        let cell = part.take_at(0);
        bring_next(cells, infos, fresh, cell);
    }
    part.finish();
    mem::swap(infos, fresh);
    fresh.clear();
}
