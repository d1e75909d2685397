ghost use Rattle.std.specs.Prelude.{◌≡◌, ◌<◌, ◌≤◌, ◌↔◌, IsTrue, map, length, if◌then◌else◌, slice_set, slice_index_or, insert, remove, filter, find, not, bytes_eq, Some, false, IfOk, IfErr};
ghost use Rattle.std.specs.List.{list_any};
ghost use Rattle.st_order.specs.Sorted.{IsRising, entered};

use st_units::{DevPath, DevRow};
use std::cmp::Ordering;

/// What stands in lists in byte order of a text.
pub trait Keyed {
    ghost use Rattle.st_order.specs.Sorted.{Text};

    ghost text: { Self → Text };

    fn key(&self) -> &[u8]
        ensures { result.now ≡ text self.now };
}

impl Keyed for DevPath {
    ghost text = { λ path. path };

    fn key(&self) -> &[u8] {
        self.bytes()
    }
}

impl Keyed for DevRow {
    ghost text = { λ row. row.path };

    fn key(&self) -> &[u8] {
        self.path.bytes()
    }
}

/// Whether each text is below the next one.
pub fn is_rising<T: Keyed>(items: &[T]) -> bool
    ensures { IsTrue result ↔ IsRising (map T.text items.now) }
{
    for i in 1..items.len() {
        if items[i - 1].key().cmp(items[i].key()) != Ordering::Less {
            return false;
        }
    }
    true
}

/// The place of the item with this text, by halving; or else the place where one belongs.
pub fn search<T: Keyed>(items: &[T], key: &[u8]) -> Result<usize, usize>
    requires { IsRising (map T.text items.now) }
    ensures there { IfOk result (λ i. i < length items.now) }
    ensures found { IfOk result (λ i. (d : _) → find (λ item. bytes_eq (T.text item) key.now) items.now ≡ Some (slice_index_or items.now i d)) }
    ensures others { IfOk result (λ i. remove items.now i ≡ filter (λ item. not (bytes_eq (T.text item) key.now)) items.now) }
    ensures changed { IfOk result (λ i. (change : _ → _) (d : _) → slice_set items.now i (change (slice_index_or items.now i d)) ≡ map (λ item. if bytes_eq (T.text item) key.now then change item else item) items.now) }
    ensures within { IfErr result (λ i. i ≤ length items.now) }
    ensures absent { IfErr result (λ _. list_any (λ item. bytes_eq (T.text item) key.now) items.now ≡ false) }
    ensures place { IfErr result (λ i. (item : _) → T.text item ≡ key.now → insert items.now i item ≡ entered T.text item items.now) }
{
    items.binary_search_by(|item| item.key().cmp(key))
}
