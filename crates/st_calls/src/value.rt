ghost use Rattle.std.specs.Prelude.{◌≡◌, is_some, option_and_then, option_map};
ghost use Rattle.json.specs.Value.{value_view, items_view as json_items, members_view as json_members};
ghost use Rattle.serde_json.specs.Find.{as_array, as_bool, as_null, as_number, as_object, as_str, as_u64, get};
ghost use Rattle.st_calls.specs.inner.View.{fits, items_fit, items_view, members_fit, view};

use crate::number::{as_integer, read_number};
use json::Value;

/// The member of that key: the last one, where it comes again.
pub(crate) fn get<'v, 'a>(value: &'v Value<'a>, key: &str) -> Option<&'v Value<'a>>
    ensures { option_map (λ v. view v.now) result ≡ get key.now (view value.now) }
{
    value.get(key)
}

pub(crate) fn as_text<'a>(value: &Value<'a>) -> Option<&'a str>
    ensures { option_map (λ text. text.now) result ≡ as_str (view value.now) }
{
    value.as_str()
}

pub(crate) fn as_number(value: &Value<'_>) -> Option<u64>
    ensures { result ≡ option_and_then as_u64 (as_number (view value.now)) }
{
    match value.as_number() {
        Some(text) => as_integer(text),
        None => None,
    }
}

pub(crate) fn as_flag(value: &Value<'_>) -> Option<bool>
    ensures { result ≡ as_bool (view value.now) }
{
    value.as_bool()
}

pub(crate) fn as_items<'v, 'a>(value: &'v Value<'a>) -> Option<&'v [Value<'a>]>
    ensures { option_map (λ items. items_view items.now) result ≡ as_array (view value.now) }
{
    match value {
        Value::Array(items) => Some(items.as_slice()),
        _ => None,
    }
}

pub(crate) fn is_null(value: &Value<'_>) -> bool
    ensures { result ≡ is_some (as_null (view value.now)) }
{
    value.is_null()
}

pub(crate) fn is_object(value: &Value<'_>) -> bool
    ensures { result ≡ is_some (as_object (view value.now)) }
{
    matches!(value, Value::Object(_))
}

/// Whether no number in the value is too large for a float.
#[cycle(fits)]
pub(crate) fn fits(value: &Value<'_>) -> bool
    ensures { result ≡ fits (value_view value.now) }
{
    match value {
        Value::Number(text) => read_number(text).is_some(),
        Value::Array(items) => items_fit(items),
        Value::Object(members) => members_fit(members),
        _ => true,
    }
}

#[cycle(fits)]
fn items_fit(items: &[Value<'_>]) -> bool
    ensures { result ≡ items_fit (json_items items.now) }
{
    for item in items {
        if !fits(item) {
            return false;
        }
    }
    true
}

#[cycle(fits)]
fn members_fit(members: &[(&str, Value<'_>)]) -> bool
    ensures { result ≡ members_fit (json_members members.now) }
{
    for member in members {
        if !fits(&member.1) {
            return false;
        }
    }
    true
}
