ghost use Rattle.std.specs.Prelude.{◌≡◌, IfOk};
ghost use Rattle.st_wants.specs.declared.want.Want.{Want};
ghost use Rattle.st_wants.specs.Wants.{compatible, mode_of, pools_differ, reads, share_a_name, takes_table, writes};

use crate::names::Names;
use st_units::{Name, NoMemory};

/// What is done with what a want covers.
#[derive(Debug, Clone, Copy, PartialEq, Eq, Drop)]
pub enum Mode {
    Read,
    Write,
}

/// What a ticket asks for: some pools by their names, or all pools and the table of pools.
#[derive(Drop)]
pub enum Want {
    Some(Names, Mode),
    All(Mode),
}

impl Want {
    /// A copy, which may be refused for want of memory alone.
    pub fn copy(&self) -> Result<Want, NoMemory>
        ensures { IfOk result (λ w. w ≡ self.now) }
    {
        match self {
            Want::Some(names, mode) => Ok(Want::Some(names.copy()?, *mode)),
            Want::All(mode) => Ok(Want::All(*mode)),
        }
    }

    pub fn mode(&self) -> Mode
        ensures { result ≡ mode_of self.now }
    {
        match self {
            Want::Some(_, mode) | Want::All(mode) => *mode,
        }
    }

    /// Whether its holder may change the pool of this name.
    pub fn writes(&self, name: &Name) -> bool
        ensures { result ≡ writes self.now name.now }
    {
        match self {
            Want::Some(names, Mode::Write) => names.has(name),
            Want::All(Mode::Write) => true,
            Want::Some(_, Mode::Read) | Want::All(Mode::Read) => false,
        }
    }

    /// Whether its holder sees the pool of this name, and may not change it.
    pub fn reads(&self, name: &Name) -> bool
        ensures { result ≡ reads self.now name.now }
    {
        match self {
            Want::Some(names, Mode::Read) => names.has(name),
            Want::All(Mode::Read) => true,
            Want::Some(_, Mode::Write) | Want::All(Mode::Write) => false,
        }
    }

    /// Whether its holder may change the table.
    pub fn takes_table(&self) -> bool
        ensures { result ≡ takes_table self.now }
    {
        matches!(self, Want::All(Mode::Write))
    }
}

/// Whether both may be granted at one time: both read, or both name pools and have no name in
/// common.
pub fn compatible(a: &Want, b: &Want) -> bool
    ensures { result ≡ compatible a.now b.now }
{
    (a.mode() == Mode::Read && b.mode() == Mode::Read) || name_different_pools(a, b)
}

fn share_a_name(ps: &Names, qs: &Names) -> bool
    ensures { result ≡ share_a_name ps.now qs.now }
{
    ps.list().items().iter().any(|p| qs.has(p))
}

fn name_different_pools(a: &Want, b: &Want) -> bool
    ensures { result ≡ pools_differ a.now b.now }
{
    match (a, b) {
        (Want::Some(ps, _), Want::Some(qs, _)) => !share_a_name(ps, qs),
        (Want::Some(_, _), Want::All(_)) | (Want::All(_), _) => false,
    }
}

/// The order of the two wants doesn't count.
pub fn compatible_is_symmetric()
    ensures { (a b : Want) → compatible a b ≡ compatible b a }
{}
