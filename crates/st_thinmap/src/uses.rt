//! How often each place is used, in a table by place.
ghost use Rattle.std.specs.Prelude.{◌≡◌, ℕ, ◌+◌, ◌-◌, ◌^◌, ◌<◌, ◌≤◌, length, vec_len, MatchOption};
ghost use Rattle.std.specs.Vec.{vec_capacity};
ghost use Rattle.st_thinmap.specs.inner.Tied.{lies_at, one_of};
ghost use Rattle.st_thinmap.specs.inner.Uses.{IsTable, IsFreeAt, count_in, one_if};

use crate::mapping::Mapping;
use crate::order::use_rank;

/// A place, and how many mappings name it.
#[derive(Clone, Copy)]
pub struct Use {
    pub place: u32,
    pub count: u32,
}

/// How often the place is used.
pub fn count_of(uses: &[Use], place: u32) -> u32
    requires { IsTable uses.now }
    ensures { result ≡ count_in uses.now place }
{
    let at = use_rank(uses, place);
    if at < uses.len() && uses[at].place == place {
        uses[at].count
    } else {
        0
    }
}

/// One use more of a place that is in use.
pub fn raise(uses: &mut Vec<Use>, place: u32)
    requires table { IsTable uses.old.items }
    requires present { 0 < count_in uses.old.items place }
    requires small { count_in uses.old.items place < 2 ^ 32 - 1 }
    ensures table { IsTable uses.new.items }
    ensures counts { (q : ℕ) → count_in uses.new.items q ≡ count_in uses.old.items q + one_if place q }
    ensures len { vec_len uses.new ≡ vec_len uses.old }
    ensures capacity { vec_capacity uses.old ≤ vec_capacity uses.new }
{
    let at = use_rank(uses, place);
    let count = uses[at].count + 1;
    uses[at] = Use { place, count };
}

/// One use less of a place that is in use; with its last use it leaves the table.
pub fn lower(uses: &mut Vec<Use>, place: u32)
    requires table { IsTable uses.old.items }
    requires present { 0 < count_in uses.old.items place }
    ensures table { IsTable uses.new.items }
    ensures counts { (q : ℕ) → count_in uses.new.items q + one_if place q ≡ count_in uses.old.items q }
    ensures len { vec_len uses.new ≤ vec_len uses.old }
    ensures capacity { vec_capacity uses.old ≤ vec_capacity uses.new }
{
    let at = use_rank(uses, place);
    let count = uses[at].count;
    if count == 1 {
        uses.remove(at);
    } else {
        let count = count - 1;
        uses[at] = Use { place, count };
    }
}

/// One use more of a place, which may be its first. It takes no memory.
pub fn add_use(uses: &mut Vec<Use>, place: u32)
    requires table { IsTable uses.old.items }
    requires small { count_in uses.old.items place < 2 ^ 32 - 1 }
    requires room { vec_len uses.old < vec_capacity uses.old }
    ensures table { IsTable uses.new.items }
    ensures counts { (q : ℕ) → count_in uses.new.items q ≡ count_in uses.old.items q + one_if place q }
    ensures len { vec_len uses.new ≤ vec_len uses.old + 1 }
    ensures capacity { vec_capacity uses.old ≤ vec_capacity uses.new }
{
    if count_of(uses, place) > 0 {
        raise(uses, place);
    } else {
        begin(uses, place);
    }
}

/// One use less of the place of a mapping that was replaced, where there was one.
pub fn lower_old(uses: &mut Vec<Use>, old: Option<Mapping>)
    requires table { IsTable uses.old.items }
    requires present { MatchOption old (Unit {0}) (λ m. 0 < count_in uses.old.items m.place) }
    ensures table { IsTable uses.new.items }
    ensures counts { (q : ℕ) → count_in uses.new.items q + one_of (lies_at q) old ≡ count_in uses.old.items q }
    ensures len { vec_len uses.new ≤ vec_len uses.old }
    ensures capacity { vec_capacity uses.old ≤ vec_capacity uses.new }
{
    if let Some(mapping) = old {
        lower(uses, mapping.place);
    }
}

/// The first use of a place. It takes no memory.
pub fn begin(uses: &mut Vec<Use>, place: u32)
    requires table { IsTable uses.old.items }
    requires absent { count_in uses.old.items place ≡ 0 }
    requires room { vec_len uses.old < vec_capacity uses.old }
    ensures table { IsTable uses.new.items }
    ensures counts { (q : ℕ) → count_in uses.new.items q ≡ count_in uses.old.items q + one_if place q }
    ensures len { vec_len uses.new ≡ vec_len uses.old + 1 }
    ensures capacity { vec_capacity uses.old ≤ vec_capacity uses.new }
{
    let at = use_rank(uses, place);
    match uses.insert(at, Use { place, count: 1 }) {
        Ok(()) => {}
        Err(_) => unreachable!(),
    }
}

/// The least place from `from` on that isn't in use and isn't among `taken` places just below `from`, all of which
/// are free. Places below `from` that are in use are `from - taken`.
pub fn gap(uses: &[Use], from: usize, taken: usize) -> usize
    requires table { IsTable uses.now }
    requires within { taken ≤ from }
    requires one { taken ≤ 1 }
    requires start { IsFreeAt uses.now from (from - taken) }
    ensures free { count_in uses.now result ≡ 0 }
    ensures at { IsFreeAt uses.now result (result - taken) }
    ensures from { from ≤ result }
    ensures few { result ≤ length uses.now + taken }
{
    let mut low = from;
    let mut high = uses.len() + taken;
    while low < high {
        let middle = low + (high - low) / 2;
        if uses[middle - taken].place as usize == middle {
            low = middle + 1;
        } else {
            high = middle;
        }
    }
    low
}
