ghost use Rattle.st_board.specs.Holds.{IsBoardKept};
ghost use Rattle.st_running.specs.Gives.{CountsItsFaults, MayComeBack};
ghost use Rattle.st_running.specs.Returns.{GoesHome};

use st_board::EngineBoard;
use st_rack::Rack;

/// What a call leaves may come back with its entry, and its numbers of faults have risen by the entry's.
pub fn what_comes_back<R: Rack>()
    ensures back { MayComeBack R.devs R.moment R.state_at R.faults }
    ensures counts { CountsItsFaults R.devs R.moment R.state_at R.faults }
    ensures home { GoesHome R.devs R.moment R.state_at R.faults }
{}

/// The racks of a board keep what it stands for.
pub fn board_keeps<R: Rack>(board: &EngineBoard<R>)
    ensures { IsBoardKept R.devs R.moment R.state_at board.now }
{
    let _past = board.past;
}
