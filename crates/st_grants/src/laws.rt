// The rule of the lock over every list of calls, each law on a function with an empty body.
ghost use Rattle.std.specs.Prelude.{List, ℕ, Some, slice_get, ◌<◌, ◌≡◌};
ghost use Rattle.st_wants.specs.declared.want.Want.{Want};
ghost use Rattle.st_wants.specs.Lock.{start};
ghost use Rattle.st_wants.specs.Places.{IsByRule, LiveGrantsApart};
ghost use Rattle.st_wants.specs.Rules.{Arrive, Grant, Move, Obeys, Release};
ghost use Rattle.st_grants.specs.Calls.{AreMade, Call, events_of};

/// Calls made where they may be made obey the rule: whatever calls on `Grants` come, each when what
/// it requires holds, the events of them are by the rule at each place, and no two live grants
/// conflict at any.
pub fn calls_obey_the_rule()
    ensures obeys { (calls : List Call) → AreMade start calls → Obeys start (events_of start calls) }
    ensures by_rule { (calls : List Call) → AreMade start calls → IsByRule (events_of start calls) }
    ensures apart { (calls : List Call) → AreMade start calls → LiveGrantsApart (events_of start calls) }
{}

/// The lock's machine allows exactly the logs that are by the rule at each place.
pub fn machine_is_the_rule()
    ensures by_rule { (log : List Move) → Obeys start log → IsByRule log }
    ensures obeys { (log : List Move) → IsByRule log → Obeys start log }
    ensures apart { (log : List Move) → Obeys start log → LiveGrantsApart log }
{}

/// Each ticket has one arrival, at most one grant, after it, and at most one release, after that,
/// all by one seat.
pub fn each_ticket_once()
    ensures granted_once { (log : List Move) (i j seat other ticket : ℕ) → IsByRule log
        → slice_get log i ≡ Some (Grant seat ticket) → slice_get log j ≡ Some (Grant other ticket) → i ≡ j }
    ensures granted_after { (log : List Move) (i seat ticket : ℕ) → IsByRule log → slice_get log i ≡ Some (Grant seat ticket)
        → (j : ℕ) × (want : Want) × (j < i) × (slice_get log j ≡ Some (Arrive seat ticket want)) }
    ensures released_once { (log : List Move) (i j seat other ticket : ℕ) → IsByRule log
        → slice_get log i ≡ Some (Release seat ticket) → slice_get log j ≡ Some (Release other ticket) → i ≡ j }
    ensures released_after { (log : List Move) (i seat ticket : ℕ) → IsByRule log → slice_get log i ≡ Some (Release seat ticket)
        → (j : ℕ) × (j < i) × (slice_get log j ≡ Some (Grant seat ticket)) }
{}
