ghost use Rattle.st_clearing.specs.Laws.{ClearedAreEmpty, ClearingStandsAlike};

/// A cleared device has nothing pending, no header and no valid slot: read alone it stands for no pool.
pub fn cleared_devices_are_empty()
    ensures { ClearedAreEmpty }
{}

/// Whatever a crash leaves while devices are cleared that stood for no pool stands for none either, and for no other pool by itself.
pub fn clearing_stands_alike()
    ensures { ClearingStandsAlike }
{}
