ghost use Rattle.std.specs.Prelude.{◌≡◌, ◌≤◌, ◌*◌, ◌∷◌, ◌++◌, [], true, length, IfOk, IsOk, OnOk};
ghost use Rattle.std.specs.List.{AllByRecursion};
ghost use Rattle.st_running.specs.Calls.{runs};
ghost use Rattle.st_laning.specs.Entries.{entries_of};
ghost use Rattle.st_laning.specs.LaneOrder.{LaneOrder};
ghost use Rattle.st_laning.specs.inner.Running.{AreAnswers};

use crate::answers::Answer;
use crate::calling::{LineDone, run_line};
use json::Scratch;
use st_alone::Home;
use st_board::EngineBoard;
use st_lines::Lines;
use st_model::Gate;
use st_pool::Pool;
use st_rack::Rack;
use st_units::{ItemList, NoMemory};
use std::alloc::Global;

/// The book after its lines, and what became of each, or that memory was refused on the way.
pub struct RanLines<R: Rack> {
    pub home: Home<Pool<R>, EngineBoard<R>>,
    pub answers: Result<ItemList<Answer>, NoMemory>,
}

/// Notes one answer more.
fn note(answers: &mut ItemList<Answer>, answer: Result<Answer, NoMemory>) -> Result<(), NoMemory>
    ensures some { OnOk result (IsOk answer) }
    ensures put { OnOk result (IfOk answer (λ a. answers.new ≡ answers.old ++ a ∷ [])) }
{
    answers.push(answer?)?;
    Ok(())
}

#[tactic(none)]
/// Runs the lines in order, each that is a call in its lane, on a book in which nothing has run, and tells what became of each.
pub fn run_lines<R: Rack, G: Gate>(
    alloc: Global,
    gate: &G,
    lanes: u8,
    home: Home<Pool<R>, EngineBoard<R>>,
    lines: &Lines,
) -> RanLines<R>
    requires empty { home.log ≡ [] }
    requires no_ticket { home.tickets ≡ 0 }
    ensures same { (result.home.opening ≡ home.opening) × (result.home.base ≡ home.base) }
    ensures laned { LaneOrder lanes lines.now result.home.log }
    ensures built { AllByRecursion (λ e. runs e.call ≡ true) (entries_of result.home.log) }
    ensures short { length result.home.log ≤ 3 * length lines.now }
    ensures answers { IfOk result.answers (λ answers. AreAnswers runs lanes lines.now result.home.log answers) }
    ensures all { IfOk result.answers (λ answers. length answers ≡ length lines.now) }
{
    let mut scratch = Scratch::new(alloc);
    let mut home = home;
    let mut answers = ItemList::make(alloc);
    for i in 0..lines.len() {
        let LineDone {
            home: after,
            answer,
        } = run_line(
            alloc,
            &mut scratch,
            gate,
            lanes,
            home,
            i as u64 + 1,
            lines.at(i),
        );
        home = after;
        if let Err(refused) = note(&mut answers, answer) {
            return RanLines {
                home,
                answers: Err(refused),
            };
        }
    }
    RanLines {
        home,
        answers: Ok(answers),
    }
}
