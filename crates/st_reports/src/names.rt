ghost use Rattle.std.specs.Prelude.{◌≡◌, IfOk, OnOk, OnErr};
ghost use Rattle.st_model.specs.Look.{distinct, has_path, kept};

use st_units::{Name, NameList, NoMemory};
use std::alloc::Global;

fn has_name(names: &[Name], name: &Name) -> bool
    ensures { result ≡ has_path name.now names.now }
{
    names.iter().any(|n| n.bytes() == name.bytes())
}

/// Puts the name last where it isn't there yet.
fn keep(list: &mut NameList, name: &Name) -> Result<(), NoMemory>
    ensures ok { OnOk result (list.new ≡ kept list.old name.now) }
    ensures err { OnErr result (list.new ≡ list.old) }
{
    if !has_name(list.items(), name) {
        list.push(name.copy()?)?;
    }
    Ok(())
}

/// Each name once, at its first place.
#[tactic(auto, using(st_model::proofs::Distinct::kept_step, st_model::proofs::Distinct::unseen_by_none))]
pub(crate) fn distinct(alloc: Global, names: &[Name]) -> Result<NameList, NoMemory>
    ensures { IfOk result (λ list. list ≡ distinct names.now) }
{
    let mut list = NameList::make(alloc);
    for name in names {
        keep(&mut list, name)?;
    }
    Ok(list)
}
