ghost use Rattle.std.specs.Prelude.{◌≡◌, ◌++◌, IfOk, string_bytes, decimal};
ghost use Rattle.st_replies.specs.Texts.{cause_text, member_text, text_of};

use st_units::{Cause, Member, NoMemory};
use std::alloc::Global;

fn member_text(member: Member) -> &'static str
    ensures { result.now ≡ member_text member }
{
    match member {
        Member::Line => "line",
        Member::Lane => "lane",
        Member::Call => "call",
        Member::Name => "name",
        Member::Devices => "devices",
        Member::Id => "id",
        Member::IdType => "id_type",
        Member::New => "new",
        Member::Pool => "pool",
        Member::Filesystems => "filesystems",
        Member::Names => "names",
        Member::Origin => "origin",
        Member::Limit => "limit",
        Member::Value => "value",
        Member::Sector => "sector",
        Member::Hex => "hex",
        Member::Fill => "fill",
        Member::Sectors => "sectors",
        Member::Pools => "pools",
    }
}

/// A value behind a text.
pub(crate) fn one_value(alloc: Global, front: &str, value: &str) -> Result<String, NoMemory>
    ensures { IfOk result (λ text. string_bytes text ≡ front.now ++ value.now) }
{
    let mut text = String::from_str(alloc, front)?;
    text.push_str(value)?;
    Ok(text)
}

/// A number behind a text.
fn one_count(alloc: Global, front: &str, count: u64) -> Result<String, NoMemory>
    ensures { IfOk result (λ text. string_bytes text ≡ front.now ++ decimal count) }
{
    let count = count.to_string(alloc)?;
    one_value(alloc, front, count.as_str())
}

/// Two values, each behind a text.
fn two_values(
    alloc: Global,
    front: &str,
    first: &str,
    middle: &str,
    second: &str,
) -> Result<String, NoMemory>
    ensures { IfOk result (λ text. string_bytes text ≡ front.now ++ first.now ++ middle.now ++ second.now) }
{
    let mut text = String::from_str(alloc, front)?;
    text.push_str(first)?;
    text.push_str(middle)?;
    text.push_str(second)?;
    Ok(text)
}

/// Two numbers, each behind a text.
fn two_counts(
    alloc: Global,
    front: &str,
    first: u64,
    middle: &str,
    second: u64,
) -> Result<String, NoMemory>
    ensures { IfOk result (λ text. string_bytes text ≡ front.now ++ decimal first ++ middle.now ++ decimal second) }
{
    let first = first.to_string(alloc)?;
    let second = second.to_string(alloc)?;
    two_values(alloc, front, first.as_str(), middle, second.as_str())
}

fn cause_text(alloc: Global, cause: &Cause) -> Result<String, NoMemory>
    ensures { IfOk result (λ text. string_bytes text ≡ cause_text cause.now) }
{
    match cause {
        Cause::BadCall(member) => one_value(alloc, "BadCall member=", member_text(*member)),
        Cause::BadName(member) => one_value(alloc, "BadName member=", member_text(*member)),
        Cause::EmptyDevices => Ok(String::from_str(alloc, "EmptyDevices")?),
        Cause::NoSuchDevice(path) => one_value(alloc, "NoSuchDevice path=", path.as_str()),
        Cause::NameInUse => Ok(String::from_str(alloc, "NameInUse")?),
        Cause::DeviceInUse(path, pool) => {
            two_values(
                alloc,
                "DeviceInUse path=",
                path.as_str(),
                " pool=",
                pool.as_str(),
            )
        }
        Cause::DeviceTooSmall(path) => one_value(alloc, "DeviceTooSmall path=", path.as_str()),
        Cause::TooManyDevices => Ok(String::from_str(alloc, "TooManyDevices")?),
        Cause::TooManyPools => Ok(String::from_str(alloc, "TooManyPools")?),
        Cause::Maintenance(pool) => one_value(alloc, "Maintenance pool=", pool.as_str()),
        Cause::PoolStopped => Ok(String::from_str(alloc, "PoolStopped")?),
        Cause::NotEmpty(count) => one_count(alloc, "NotEmpty filesystems=", *count),
        Cause::NoSuchPool => Ok(String::from_str(alloc, "NoSuchPool")?),
        Cause::MissingDevice(path) => one_value(alloc, "MissingDevice path=", path.as_str()),
        Cause::PoolVanished => Ok(String::from_str(alloc, "PoolVanished")?),
        Cause::CacheExists => Ok(String::from_str(alloc, "CacheExists")?),
        Cause::NoCache => Ok(String::from_str(alloc, "NoCache")?),
        Cause::BadSize(name) => one_value(alloc, "BadSize name=", name.as_str()),
        Cause::TooManyFilesystems => Ok(String::from_str(alloc, "TooManyFilesystems")?),
        Cause::OverProvision(sum, room) => {
            two_counts(alloc, "OverProvision sum=", *sum, " room=", *room)
        }
        Cause::NoSuchFilesystem => Ok(String::from_str(alloc, "NoSuchFilesystem")?),
        Cause::MappingFull(mappings, more) => {
            two_counts(alloc, "MappingFull mappings=", *mappings, " more=", *more)
        }
        Cause::LimitBelowSize(name) => one_value(alloc, "LimitBelowSize name=", name.as_str()),
        Cause::LimitLower => Ok(String::from_str(alloc, "LimitLower")?),
        Cause::OutOfRange => Ok(String::from_str(alloc, "OutOfRange")?),
        Cause::NoSpace(free, needed) => {
            two_counts(alloc, "NoSpace free=", *free, " needed=", *needed)
        }
        Cause::DeviceFault => Ok(String::from_str(alloc, "DeviceFault")?),
        Cause::OutOfMemory => Ok(String::from_str(alloc, "OutOfMemory")?),
        Cause::Worn => Ok(String::from_str(alloc, "Worn")?),
        Cause::NoOrigin => Ok(String::from_str(alloc, "NoOrigin")?),
        Cause::MergeConflict(name) => one_value(alloc, "MergeConflict name=", name.as_str()),
    }
}

/// The text of a reply with this cause.
#[tactic(auto, unfolding(crate::specs::Texts::text_of))]
pub(crate) fn text_of(alloc: Global, cause: &Option<Cause>) -> Result<String, NoMemory>
    ensures { IfOk result (λ text. string_bytes text ≡ text_of cause.now) }
{
    match cause {
        Some(cause) => cause_text(alloc, cause),
        None => Ok(String::new(alloc)),
    }
}
