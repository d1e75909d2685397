ghost use Rattle.std.specs.Prelude.{◌≡◌, ◌<◌, ◌^◌, [], true, false, Some, IfOk, IfSome, IfNone, None, option_copied};
ghost use Rattle.st_model.specs.declared.entry.Env.TheVariants.{Plain};
ghost use Rattle.st_poolrec.specs.Record.{is_record};
ghost use Rattle.st_books.specs.Spelled.{IsLater};
ghost use Rattle.st_model.specs.declared.reply.Reply.{Reply};
ghost use Rattle.st_pool.specs.Answered.{answered};
ghost use Rattle.st_pool.specs.inner.Plans.{AreTwins, IsPlan, MayCommit, record_with, refusal};

use crate::answers::plainly;
use crate::reply::PoolReply;
use st_books::{Books, Next, spell_next};
use st_limits::MAX_COMMITS;
use st_model::{Call, FsInfoList, PoolInfo, Reply, ShownMode};
use st_poolrec::PoolRec;
use st_units::{Cause, Name, NoMemory, SegList, Segment, Shared};
use std::alloc::Global;

/// An info for the pool itself, and one to give.
#[derive(Drop)]
pub struct Twins {
    pub own: Shared<PoolInfo>,
    pub spare: Shared<PoolInfo>,
}

/// What a commit takes before its first device call.
#[derive(Drop)]
pub struct Plan {
    pub next: Next,
    /// The call that is in flight where a device fails.
    pub call: Call,
    /// The infos of the pool where a device fails.
    pub down: Twins,
}

/// The refusal of a call that commits, where there is one.
pub fn refusal(books: &Books, flight: Option<&Call>) -> Result<Option<PoolReply>, NoMemory>
    ensures some { IfOk result (λ found. IfSome found (λ answer. (reply : Reply) × (refusal books.now (option_copied flight.entry) ≡ Some reply) × (answer ≡ answered Plain reply))) }
    ensures none { IfOk result (λ found. IfNone found (refusal books.now (option_copied flight.entry) ≡ None)) }
{
    if flight.is_some() {
        let name = &books.rec.name;
        return Ok(Some(plainly(
            Reply::refused(Cause::Maintenance(name.copy()?)),
            Reply::refused(Cause::Maintenance(name.copy()?)),
        )));
    }
    if books.generation == MAX_COMMITS {
        return Ok(Some(plainly(Reply::refused(Cause::Worn), Reply::refused(Cause::Worn))));
    }
    Ok(None)
}

/// Infos of a pool without filesystems, with this name and mode in place of its own.
pub fn twins_of(
    alloc: Global,
    info: &PoolInfo,
    name: &Name,
    mode: ShownMode,
) -> Result<Twins, NoMemory>
    requires { info.now.filesystems ≡ [] }
    ensures { IfOk result (AreTwins (record info.now { name = name.now; mode = mode })) }
{
    let shown = PoolInfo {
        serial: info.serial,
        name: name.copy()?,
        mode,
        devs: info.devs.copy(alloc)?,
        filesystems: FsInfoList::make(alloc),
        fs_limit: info.fs_limit,
        overprovisioning: info.overprovisioning,
        room: info.room,
        allocated: info.allocated,
        used: info.used,
        cache: info.cache,
    };
    twice(alloc, shown)
}

/// This info, twice.
pub fn twice(alloc: Global, info: PoolInfo) -> Result<Twins, NoMemory>
    ensures { IfOk result (AreTwins info) }
{
    let own = shared(alloc, info)?;
    let spare = own.copy()?;
    Ok(Twins { own, spare })
}

fn shared(alloc: Global, info: PoolInfo) -> Result<Shared<PoolInfo>, NoMemory>
    ensures { IfOk result (λ shared. shared ≡ info) }
{
    match Shared::make(alloc, info) {
        Ok(shared) => Ok(shared),
        Err(_) => Err(NoMemory),
    }
}

fn segments_copy(alloc: Global, segments: &[Segment]) -> Result<SegList, NoMemory>
    ensures { IfOk result (λ list. list ≡ segments.now) }
{
    let mut items = Vec::new(alloc);
    items.extend_from_slice(segments)?;
    Ok(SegList::of(items))
}

/// The record with this name, gone or not, in version 2.
pub fn record_with(
    alloc: Global,
    rec: &PoolRec,
    name: Name,
    gone: bool,
) -> Result<PoolRec, NoMemory>
    ensures { IfOk result (λ other. other ≡ record_with name gone rec.now) }
{
    Ok(PoolRec {
        serial: rec.serial,
        gone,
        overprovisioning: rec.overprovisioning,
        version2: true,
        fs_limit: rec.fs_limit,
        name,
        devs: rec.devs.copy(alloc)?,
        segments: segments_copy(alloc, rec.segments.items())?,
    })
}

/// The plan of a commit of this record for a call.
pub fn plan_of(
    alloc: Global,
    books: &Books,
    info: &PoolInfo,
    rec: PoolRec,
    call: Call,
) -> Result<Plan, NoMemory>
    requires may { MayCommit books.now }
    requires last { books.now.generation < 2 ^ 48 }
    requires valid { is_record rec ≡ true }
    requires later { IsLater books.now rec }
    requires bare { info.now.filesystems ≡ [] }
    ensures { IfOk result (IsPlan books.now info.now rec call) }
{
    let down = twins_of(alloc, info, &info.name, ShownMode::Down)?;
    let next = spell_next(alloc, books, rec)?;
    Ok(Plan { next, call, down })
}
