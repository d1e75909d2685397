ghost use Rattle.std.specs.Prelude.{◌≡◌, ◌+◌, ◌<◌, ◌^◌, [], true, length, IfOk};
ghost use Rattle.st_fields.specs.Slot.{padded};
ghost use Rattle.st_poolrec.specs.Record.{is_record};
ghost use Rattle.st_flexrec.specs.Conditions.{KeepsConditions};
ghost use Rattle.st_books.specs.Spelled.{IsLater, IsBare, IsNext, bare_record, no_rows};

use crate::books::{Books, Next};
use st_flexlog::{Delta, FlexState};
use st_flexrec::{CellRows, FlexRec, FsRows, MapRows};
use st_poolrec::PoolRec;
use st_units::NoMemory;
use std::alloc::Global;

/// The spellings of the next commit with this record, in version 2: a record of the pool, and a log that says what it said.
#[tactic(none)]
pub fn spell_next(alloc: Global, books: &Books, rec: PoolRec) -> Result<Next, NoMemory>
    requires valid { is_record rec ≡ true }
    requires later { IsLater books.now rec }
    requires bare { IsBare books.now.rec.serial books.now.generation books.now.flex }
    requires last { books.now.generation < 2 ^ 48 }
    ensures { IfOk result (λ next. IsNext books.now next × (next.rec ≡ rec)) }
{
    let rec_text = st_poolrec::encode(alloc, &rec)?;
    let body = st_flexrec::encode(alloc, &bare_record(alloc, &books.flex))?;
    let delta = st_flexlog::encode(&no_rows(&books.flex));
    let rec_work = work_for(alloc, rec_text.items())?;
    let delta_work = work_for(alloc, delta.bytes())?;
    let body_work = work_for(alloc, body.items())?;
    Ok(Next {
        rec,
        rec_text,
        delta,
        body,
        rec_work,
        delta_work,
        body_work,
    })
}

/// The flex record of a pool without filesystems.
fn bare_record(alloc: Global, flex: &FlexState) -> FlexRec
    ensures { result ≡ bare_record flex.now }
{
    FlexRec {
        version2: true,
        serial: flex.serial,
        next_fs: flex.next_fs,
        next_cell: flex.next_cell,
        filesystems: FsRows::make(alloc),
        mappings: MapRows::make(alloc),
        cells: CellRows::make(alloc),
    }
}

/// The delta of a commit that maps no block.
fn no_rows(flex: &FlexState) -> Delta
    ensures { result ≡ no_rows flex.now }
{
    Delta {
        serial: flex.serial,
        next_cell: flex.next_cell,
        first: None,
        second: None,
    }
}

/// What it takes to write a body of so many bytes into a slot.
fn work_for(alloc: Global, body: &[u8]) -> Result<Vec<u8>, NoMemory>
    requires { length body.now < 2 ^ 40 }
    ensures { IfOk result (λ work. length work.items ≡ padded (64 + length body.now)) }
{
    let sectors = (64 + body.len() + 511) / 512;
    Ok(vec![in alloc; 0u8; 512 * sectors]?)
}
