ghost use Rattle.std.specs.Prelude.{◌≡◌, ◌∷◌, IfOk};
ghost use Rattle.st_model.specs.Look.{distinct, has_path, without};

use st_units::{Name, NameList, NoMemory};
use std::alloc::Global;

/// Whether the name is among these.
pub(crate) fn has_name(names: &[Name], name: &Name) -> bool
    ensures { result ≡ has_path name.now names.now }
{
    names.iter().any(|n| n.bytes() == name.bytes())
}

/// This name, and behind it those that differ from it.
fn with_others(alloc: Global, first: &Name, names: &[Name]) -> Result<NameList, NoMemory>
    ensures { IfOk result (λ list. list ≡ first.now ∷ without first.now names.now) }
{
    let mut list = NameList::make(alloc);
    list.push(first.copy()?)?;
    for name in names {
        if first.bytes() != name.bytes() {
            list.push(name.copy()?)?;
        }
    }
    Ok(list)
}

/// Each name once, at its first place.
pub(crate) fn distinct(alloc: Global, names: &[Name]) -> Result<NameList, NoMemory>
    ensures { IfOk result (λ list. list ≡ distinct names.now) }
{
    let [first, later @ ..] = names else {
        return Ok(NameList::make(alloc));
    };
    with_others(alloc, first, distinct(alloc, later)?.items())
}
