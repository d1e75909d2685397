ghost use Rattle.st_lines.specs.GiveBack.{LinesAreBare, LinesGiveBack};
ghost use Rattle.st_lines.specs.Limits.{FirstStays};

/// The lines of a text, each with an LF behind it, are the text, but that a last line may have
/// had none; and no line has an LF in it.
pub fn lines_give_back()
    ensures whole { LinesGiveBack }
    ensures bare { LinesAreBare }
{}

/// The limit that is told is broken by a beginning of the input already: no byte after it can
/// change the answer.
pub fn first_limit_stays()
    ensures { FirstStays }
{}
