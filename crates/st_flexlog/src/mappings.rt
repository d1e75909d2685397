ghost use Rattle.std.specs.Prelude.{◌≡◌, not, OnOk};
ghost use Rattle.std.specs.List.{list_all, position};
ghost use Rattle.st_flexlog.specs.Applied.{stands_before, is_of_block, put_mapping, mapping_by, put_rows, has_other_place, has_own_place, are_mappings};

use crate::delta::DeltaRow;
use crate::state::{Mapping, Mappings};
use st_limits::MAX_MAPPINGS;
use st_units::NoMemory;

/// Puts the rows into the mappings, each in its order.
pub fn put_rows(mappings: &mut Mappings, rows: &[DeltaRow]) -> Result<(), NoMemory>
    ensures { OnOk result (mappings.new ≡ put_rows rows.now mappings.old) }
{
    for row in rows {
        put_mapping(mappings, mapping_by(row))?;
    }
    Ok(())
}

fn mapping_by(row: &DeltaRow) -> Mapping
    ensures { result ≡ mapping_by row.now }
{
    Mapping {
        fs: row.fs,
        block: row.block,
        cell: row.cell,
        place: row.place,
    }
}

#[tactic(auto, using(crate::proofs::Putting::is_set, crate::proofs::Putting::is_put, crate::proofs::Putting::is_last))]
fn put_mapping(mappings: &mut Mappings, mapping: Mapping) -> Result<(), NoMemory>
    ensures { OnOk result (mappings.new ≡ put_mapping mapping mappings.old) }
{
    match first_not_before(mappings.items(), &mapping) {
        None => {
            mappings.push(mapping)?;
            Ok(())
        }
        Some(at) => {
            if is_of_block(&mapping, mappings.at(at)) {
                mappings.replace(at, mapping);
                Ok(())
            } else {
                mappings.insert(at, mapping)
            }
        }
    }
}

/// The place of the first mapping that doesn't stand in front of this one.
fn first_not_before(mappings: &[Mapping], mapping: &Mapping) -> Option<usize>
    ensures { result ≡ position (λ other. not (stands_before other mapping.now)) mappings.now }
{
    mappings
        .iter()
        .position(|other| !stands_before(other, mapping))
}

fn stands_before(mapping: &Mapping, later: &Mapping) -> bool
    ensures { result ≡ stands_before mapping.now later.now }
{
    mapping.fs < later.fs || (mapping.fs == later.fs && mapping.block < later.block)
}

fn is_of_block(mapping: &Mapping, other: &Mapping) -> bool
    ensures { result ≡ is_of_block mapping.now other.now }
{
    mapping.fs == other.fs && mapping.block == other.block
}

/// Whether a record can have so many mappings, and the cells of the rows have places of their own.
pub fn are_mappings(rows: &[DeltaRow], mappings: &[Mapping]) -> bool
    ensures { result ≡ are_mappings rows.now mappings.now }
{
    mappings.len() as u64 <= MAX_MAPPINGS && have_own_places(rows, mappings)
}

fn have_own_places(rows: &[DeltaRow], mappings: &[Mapping]) -> bool
    ensures { result ≡ list_all (has_own_place mappings.now) rows.now }
{
    rows.iter().all(|row| has_own_place(mappings, row))
}

fn has_own_place(mappings: &[Mapping], row: &DeltaRow) -> bool
    ensures { result ≡ has_own_place mappings.now row.now }
{
    mappings.iter().all(|mapping| has_other_place(row, mapping))
}

fn has_other_place(row: &DeltaRow, mapping: &Mapping) -> bool
    ensures { result ≡ has_other_place row.now mapping.now }
{
    mapping.cell == row.cell || mapping.place != row.place
}
