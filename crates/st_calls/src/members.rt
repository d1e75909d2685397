ghost use Rattle.std.specs.Prelude.{◌≡◌, option_map, option_copied};
ghost use Rattle.st_calls.specs.inner.View.{view, items_view};
ghost use Rattle.st_calls.specs.Gives.{Gives};
ghost use Rattle.st_calls.specs.Members.{text_at, name_of, name_at, number_at, number_or_null, number_if_told, optional_number_at, flag_at, each, items_at, path_of, paths_at, name_item, names_at};

use crate::fault::LineFault;
use crate::value::{as_flag, as_items, as_number, as_text, get, is_null};
use json::Value;
use st_units::{DevList, DevPath, Member, Name, NameFault, NameList, PathFault};
use std::alloc::Global;

pub(crate) fn text_at<'a>(
    value: &Value<'a>,
    key: &str,
    member: Member,
) -> Result<&'a str, LineFault>
    ensures { Gives (λ text. text.now) result (text_at member key.now (view value.now)) }
{
    match get(value, key).and_then(as_text) {
        Some(text) => Ok(text),
        None => Err(LineFault::BadCall(member)),
    }
}

fn name_of(alloc: Global, text: &str, member: Member) -> Result<Name, LineFault>
    ensures { Gives (λ name. name) result (name_of member text.now) }
{
    match Name::read(alloc, text.as_bytes()) {
        Ok(name) => Ok(name),
        Err(NameFault::BadName) => Err(LineFault::BadName(member)),
        Err(NameFault::OutOfMemory) => Err(LineFault::OutOfMemory),
    }
}

#[tactic(auto, unfolding(crate::specs::Members::name_at))]
pub(crate) fn name_at(
    alloc: Global,
    value: &Value<'_>,
    key: &str,
    member: Member,
) -> Result<Name, LineFault>
    ensures { Gives (λ name. name) result (name_at member key.now (view value.now)) }
{
    name_of(alloc, text_at(value, key, member)?, member)
}

#[tactic(auto, unfolding(crate::specs::Members::number_at))]
pub(crate) fn number_at(value: &Value<'_>, key: &str, member: Member) -> Result<u64, LineFault>
    ensures { Gives (λ number. number) result (number_at member key.now (view value.now)) }
{
    match get(value, key).and_then(as_number) {
        Some(number) => Ok(number),
        None => Err(LineFault::BadCall(member)),
    }
}

fn number_or_null(value: &Value<'_>, member: Member) -> Result<Option<u64>, LineFault>
    ensures { Gives (λ number. number) result (number_or_null member (view value.now)) }
{
    if is_null(value) {
        return Ok(None);
    }
    match as_number(value) {
        Some(number) => Ok(Some(number)),
        None => Err(LineFault::BadCall(member)),
    }
}

/// A number, or none where it is absent or null.
#[tactic(auto, unfolding(crate::specs::Members::optional_number_at))]
pub(crate) fn optional_number_at(
    value: &Value<'_>,
    key: &str,
    member: Member,
) -> Result<Option<u64>, LineFault>
    ensures { Gives (λ number. number) result (optional_number_at member key.now (view value.now)) }
{
    match get(value, key) {
        Some(value) => number_or_null(value, member),
        None => Ok(None),
    }
}

#[tactic(auto, unfolding(crate::specs::Members::flag_at))]
pub(crate) fn flag_at(value: &Value<'_>, key: &str, member: Member) -> Result<bool, LineFault>
    ensures { Gives (λ flag. flag) result (flag_at member key.now (view value.now)) }
{
    match get(value, key).and_then(as_flag) {
        Some(flag) => Ok(flag),
        None => Err(LineFault::BadCall(member)),
    }
}

pub(crate) fn items_at<'v, 'a>(
    value: &'v Value<'a>,
    key: &str,
    member: Member,
) -> Result<&'v [Value<'a>], LineFault>
    ensures { Gives (λ items. items_view items.now) result (items_at member key.now (view value.now)) }
{
    match get(value, key).and_then(as_items) {
        Some(items) => Ok(items),
        None => Err(LineFault::BadCall(member)),
    }
}

#[tactic(auto, unfolding(crate::specs::Members::path_of))]
fn path_of(alloc: Global, value: &Value) -> Result<DevPath, LineFault>
    ensures { Gives (λ path. path) result (path_of (view value.now)) }
{
    let Some(text) = as_text(value) else {
        return Err(LineFault::BadCall(Member::Devices));
    };
    match DevPath::read(alloc, text.as_bytes()) {
        Ok(path) => Ok(path),
        Err(PathFault::BadPath) => Err(LineFault::BadCall(Member::Devices)),
        Err(PathFault::OutOfMemory) => Err(LineFault::OutOfMemory),
    }
}

fn paths_of(alloc: Global, values: &[Value<'_>]) -> Result<DevList, LineFault>
    ensures { Gives (λ paths. paths) result (each path_of (items_view values.now)) }
{
    let mut list = DevList::make(alloc);
    for value in values {
        let path = path_of(alloc, value)?;
        if list.push(path).is_err() {
            return Err(LineFault::OutOfMemory);
        }
    }
    Ok(list)
}

#[tactic(auto, unfolding(crate::specs::Members::paths_at))]
pub(crate) fn paths_at(alloc: Global, value: &Value<'_>, key: &str) -> Result<DevList, LineFault>
    ensures { Gives (λ paths. paths) result (paths_at key.now (view value.now)) }
{
    paths_of(alloc, items_at(value, key, Member::Devices)?)
}

#[tactic(auto, unfolding(crate::specs::Members::name_item))]
fn name_item(alloc: Global, value: &Value<'_>, member: Member) -> Result<Name, LineFault>
    ensures { Gives (λ name. name) result (name_item member (view value.now)) }
{
    match as_text(value) {
        Some(text) => name_of(alloc, text, member),
        None => Err(LineFault::BadCall(member)),
    }
}

fn names_of(alloc: Global, values: &[Value<'_>], member: Member) -> Result<NameList, LineFault>
    ensures { Gives (λ names. names) result (each (name_item member) (items_view values.now)) }
{
    let mut list = NameList::make(alloc);
    for value in values {
        let name = name_item(alloc, value, member)?;
        if list.push(name).is_err() {
            return Err(LineFault::OutOfMemory);
        }
    }
    Ok(list)
}

#[tactic(auto, unfolding(crate::specs::Members::names_at))]
pub(crate) fn names_at(
    alloc: Global,
    value: &Value<'_>,
    key: &str,
    member: Member,
) -> Result<NameList, LineFault>
    ensures { Gives (λ names. names) result (names_at member key.now (view value.now)) }
{
    names_of(alloc, items_at(value, key, member)?, member)
}
