ghost use Rattle.std.specs.Prelude.{◌≡◌, ◌≤◌, ◌<◌, false, true, length, slice_get, IfSome};
ghost use Rattle.st_limits.specs.declared.TheConstants.{MAX_DEVICE_SECTORS};
ghost use Rattle.st_rack.specs.Calls.{IsFit};

use st_limits::{MAX_DEVICE_SECTORS, MAX_RACK_DEVICES};
use st_rack::Rack;

/// Whether a run may be handed this rack: it has at most 64 devices, each of at most 2^32 sectors.
pub fn is_fit<R: Rack>(rack: &R) -> bool
    ensures fit { result ≡ true → IsFit (R.devs rack.now) }
    ensures unfit { result ≡ false → IsFit (R.devs rack.now) → ⊥ }
{
    let count = rack.devices();
    if count as u64 > MAX_RACK_DEVICES {
        return false;
    }
    for i in 0..count {
        if !is_small(rack, i) {
            return false;
        }
    }
    true
}

/// Whether the device has no more sectors than one may have.
fn is_small<R: Rack>(rack: &R, i: usize) -> bool
    requires { i < length (R.devs rack.now) }
    ensures small { result ≡ true → IfSome (slice_get (R.devs rack.now) i) (λ d. d.1 ≤ MAX_DEVICE_SECTORS) }
    ensures large { result ≡ false → IsFit (R.devs rack.now) → ⊥ }
{
    match rack.sectors(rack.path_of(i)) {
        Some(sectors) => sectors <= MAX_DEVICE_SECTORS,
        None => unreachable!(),
    }
}
