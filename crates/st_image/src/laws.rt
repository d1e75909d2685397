//! Laws of what devices stand for and keep. They do nothing when they run.

ghost use Rattle.st_image.specs.Laws.{StandsOnce, RackStandsOnce, NotForeign, UpStands, UpIsKept, CommittedShows, CellsWithPieces, KeptWhereSame, KeptBySync, KeptByCut, EngineKeptBySync, EngineKeptByCut, KeptByStop, OtherCommits, SameCommits, SegmentsInOrder, SegmentsAreBlocks};

/// Devices stand for one thing at most.
pub fn stands_once()
    ensures { StandsOnce }
{}

/// A rack's devices stand for one state at most.
pub fn rack_stands_once()
    ensures { RackStandsOnce }
{}

/// Devices that stand for a state are not foreign.
pub fn not_foreign()
    ensures { NotForeign }
{}

/// What a crash leaves of a pool that is up stands for its merge.
pub fn up_stands()
    ensures { UpStands }
{}

/// A pool that is up is kept.
pub fn up_is_kept()
    ensures { UpIsKept }
{}

/// What commits leave shows in whatever a crash leaves.
pub fn committed_shows()
    ensures { CommittedShows }
{}

/// Cells of an image that differs from another in pieces alone.
pub fn cells_with_pieces()
    ensures { CellsWithPieces }
{}

/// A pool is kept where a rack is split or joined.
pub fn kept_where_same()
    ensures { KeptWhereSame }
{}

/// A pool is kept by a sync.
pub fn kept_by_sync()
    ensures { KeptBySync }
{}

/// A pool is kept by a power cut.
pub fn kept_by_cut()
    ensures { KeptByCut }
{}

/// A whole rack goes on keeping the engine's state by a sync.
pub fn engine_kept_by_sync()
    ensures { EngineKeptBySync }
{}

/// A whole rack goes on keeping the engine's state by a power cut.
pub fn engine_kept_by_cut()
    ensures { EngineKeptByCut }
{}

/// A pool is kept by a stop.
pub fn kept_by_stop()
    ensures { KeptByStop }
{}

/// Other commits tell that a call in flight was done.
pub fn other_commits()
    ensures { OtherCommits }
{}

/// The same commits tell that it wasn't.
pub fn same_commits()
    ensures { SameCommits }
{}

/// The blocks that a data tier has taken are segments of a record.
pub fn segments_in_order()
    ensures { SegmentsInOrder }
{}

/// The blocks of these segments are the first that the pool's devices have for data.
pub fn segments_are_blocks()
    ensures { SegmentsAreBlocks }
{}
