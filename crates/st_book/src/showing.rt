ghost use Rattle.std.specs.Prelude.{◌≡◌, ◌+◌, ◌<◌, ◌≤◌, ◌∷◌, ◌++◌, true, false, map, length, take, bytes_eq, option_map, Some, None, IfSome, IfNone, IsSomeAnd, slice_get, []};
ghost use Rattle.st_wants.specs.Wants.{takes_table};
ghost use Rattle.st_model.specs.Pieces.{info_at};
ghost use Rattle.st_book.specs.Effects.{infos_given, table_info_given};

use crate::part::InfoList;
use st_model::{Board, Cell, Named};
use st_units::{Name, Shared};
use st_wants::Want;

/// What a part shows, or nothing where a copy was refused.
pub(crate) struct Showing<C: Cell, T: Board> {
    pub table_info: Option<Shared<T::Info>>,
    pub infos: InfoList<C::Info>,
    pub short: bool,
}

/// Where the first info of a name is.
pub(crate) fn info_place<C: Cell>(infos: &[Shared<C::Info>], name: &Name) -> Option<usize>
    ensures some { IfSome result (λ i. IsSomeAnd (slice_get infos.now i) (λ x. bytes_eq (C.Info.named x) name.now ≡ true)) }
    ensures first { IfSome result (λ i. info_at name.now (map C.shows (take i infos.now)) ≡ None) }
    ensures none { IfNone result (info_at name.now (map C.shows infos.now) ≡ None) }
{
    for (i, info) in infos.iter().enumerate() {
        if info.value().name().bytes() == name.bytes() {
            return Some(i);
        }
    }
    None
}

/// Copies all infos, and tells whether no copy was refused.
pub(crate) fn copy_all<I: Drop>(infos: &[Shared<I>], list: &mut InfoList<I>) -> bool
    requires empty { length list.old.items ≡ 0 }
    requires room { length infos.now ≤ list.old.room }
    ensures { result ≡ true → list.new.items ≡ infos.now }
{
    for info in infos {
        match info.copy() {
            Ok(copy) => list.put(copy),
            Err(_) => return false,
        }
    }
    true
}

/// Copies an info, where the want gets it, and tells whether the copy wasn't refused.
fn copy_due<C: Cell>(want: &Want, info: &Shared<C::Info>, list: &mut InfoList<C::Info>) -> bool
    requires { 0 < list.old.room }
    ensures copied { result ≡ true → map C.shows list.new.items ≡ map C.shows list.old.items ++ infos_given want.now (C.shows info.now ∷ []) }
    ensures due { result ≡ false → takes_table want.now ≡ false }
    ensures len { length list.new.items ≤ length list.old.items + 1 }
    ensures places { length list.old.items + list.old.room ≤ length list.new.items + list.new.room }
{
    if !want.reads(info.value().name()) {
        return true;
    }
    match info.copy() {
        Ok(copy) => {
            list.put(copy);
            true
        }
        Err(_) => false,
    }
}

/// Copies the infos that a want gets, and tells whether no copy was refused.
fn copy_infos<C: Cell>(want: &Want, infos: &[Shared<C::Info>], list: &mut InfoList<C::Info>) -> bool
    requires empty { length list.old.items ≡ 0 }
    requires room { 16 ≤ list.old.room }
    requires few { length infos.now ≤ 16 }
    ensures copied { result ≡ true → map C.shows list.new.items ≡ infos_given want.now (map C.shows infos.now) }
    ensures due { result ≡ false → takes_table want.now ≡ false }
{
    for info in infos {
        if !copy_due::<C>(want, info, list) {
            return false;
        }
    }
    true
}

/// A copy of the table's info, where the want gets it; with whether it wasn't refused.
fn copy_table_info<T: Board>(want: &Want, info: &Shared<T::Info>) -> (Option<Shared<T::Info>>, bool)
    ensures copied { result.1 ≡ true → option_map T.shows result.0 ≡ table_info_given want.now (T.shows info.now) }
    ensures due { result.1 ≡ false → takes_table want.now ≡ false }
{
    if want.takes_table() {
        return (None, true);
    }
    match info.copy() {
        Ok(copy) => (Some(copy), true),
        Err(_) => (None, false),
    }
}

/// What a part of this want shows.
pub(crate) fn show_part<C: Cell, T: Board>(
    want: &Want,
    table_info: &Shared<T::Info>,
    infos: &[Shared<C::Info>],
    list: InfoList<C::Info>,
) -> Showing<C, T>
    requires empty { length list.items ≡ 0 }
    requires room { 16 ≤ list.room }
    requires few { length infos.now ≤ 16 }
    ensures infos { result.short ≡ false → map C.shows result.infos.items ≡ infos_given want.now (map C.shows infos.now) }
    ensures table { result.short ≡ false → option_map T.shows result.table_info ≡ table_info_given want.now (T.shows table_info.now) }
    ensures no_infos { result.short ≡ true → result.infos.items ≡ [] }
    ensures no_table { result.short ≡ true → result.table_info ≡ None }
    ensures due { result.short ≡ true → takes_table want.now ≡ false }
{
    let mut infos_copied = list;
    let whole = copy_infos::<C>(want, infos, &mut infos_copied);
    let (table_copied, also) = copy_table_info::<T>(want, table_info);
    if whole && also {
        return Showing {
            table_info: table_copied,
            infos: infos_copied,
            short: false,
        };
    }
    infos_copied.clear();
    Showing {
        table_info: None,
        infos: infos_copied,
        short: true,
    }
}
