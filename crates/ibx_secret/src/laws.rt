ghost use Rattle.ibx_secret.specs.Laws.{StepsAlike};
ghost use Rattle.ibx_secret.specs.Reasons.{FindsLeak, TellsLeaks};
ghost use Rattle.ibx_secret.specs.Runs.{IsEven, IsEvenStory, IsEvenToBudget, IsEvenToHalt};

/// The laws of marks. Two states that agree off the marks, with the same fetched, step to states that agree off the
/// marks after the event, with events of the same time, where the event of the first doesn't leak. So two runs with
/// equal configuration and plan, on images that agree off the secret bytes, have the same times and cycles, event by
/// event, as long as none of the first run's events leaks: in their histories, and in their stories, which end with
/// the first halting store. Where the first run's story halts, or nothing leaks of what
/// follows it below the budget, the second's has as many events. Our own rules.
pub fn laws_of_marks()
    ensures alike { StepsAlike }
    ensures even { IsEven }
    ensures even_story { IsEvenStory }
    ensures even_to_halt { IsEvenToHalt }
    ensures even_to_budget { IsEvenToBudget }
{}

/// The laws of leaks. An event leaks exactly where it has a reason: what was fetched is looked at before its operands.
/// The first leak of events is found: none before it leaks, and it is that of the event at its index, with the marks
/// that the events before it left. Our own rules.
pub fn laws_of_leaks()
    ensures told { TellsLeaks }
    ensures first { FindsLeak }
{}
