ghost use Rattle.std.specs.Prelude.{◌≡◌, List};
ghost use Rattle.st_seg.specs.Blocks.{NoneTwice};
ghost use Rattle.st_seg.specs.Stock.{empty_stock, added};
ghost use Rattle.st_seg.specs.Calls.{Call, after_calls, added_by};

/// Over every list of calls: what was handed out, and then what is free, is just what was added, in
/// that order. So where no block was added twice, none is ever handed out twice.
pub fn segments_never_overlap()
    ensures order { (calls : List Call) → added (after_calls empty_stock calls) ≡ added_by calls }
    ensures apart { (calls : List Call) → NoneTwice (added_by calls) → NoneTwice (after_calls empty_stock calls).taken }
{}
