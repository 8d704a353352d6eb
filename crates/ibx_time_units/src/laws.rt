ghost use Rattle.std.specs.Prelude.{ℕ};
ghost use Rattle.ibx_core.specs.declared.state.State.{State};
ghost use Rattle.ibx_system.specs.System.{Whole};
ghost use Rattle.ibx_time.specs.Runs.{IsPlaced};
ghost use Rattle.ibx_time_system.specs.Projection.{IsStart};
ghost use Rattle.ibx_time.specs.Settings.{Setup};
ghost use Rattle.ibx_time_units.specs.Buffer.{BufferKeepsTimes};
ghost use Rattle.ibx_time_units.specs.Held.{HoldsFetches};
ghost use Rattle.ibx_time_units.specs.Histories.{IsLed};
ghost use Rattle.ibx_time_units.specs.Port.{PortKeepsTimes};

/// The prefetch buffer by itself. A word port answers it in the cycles of the time equations; in each cycle there may
/// be a redirect, and parcels that have answered are taken. Then in every cycle it requests the word that the equations
/// say, or none, offers the parcels at the program counter just where their words have answered, and holds the words
/// that have answered since the last redirect, so that a word from before it is dropped (`times`). What the events of a
/// history bring is such a course, and leads before every cycle to the words of the history (`history`). Our own rules.
pub fn prefetch_keeps_times()
    ensures times { (s : Setup) → IsPlaced s → BufferKeepsTimes s }
    ensures history { (s : Setup) (n : ℕ) → IsPlaced s → IsLed s n }
{}

/// The word port by itself, with its port of the bus and the words of the cache. A buffer requests words of it in the
/// cycles of the time equations; in each cycle the cache may be switched, or emptied by a FENCE.I. Then in every cycle
/// it answers the word that the equations say, or none, and drives the transaction that they say, and the tag words and
/// data words are what the stored lines and the walk left. Our own rules.
pub fn word_port_keeps_times()
    ensures times { (s : Setup) → IsPlaced s → PortKeepsTimes s }
{}

/// Main in its system, without a flip: before every cycle its buffer, its word port and the words of its cache are
/// those that the time equations give for the history. Our own rules.
pub fn core_holds_the_fetches()
    ensures { (s : Setup) (w : Whole State) → IsPlaced s → IsStart s w → HoldsFetches s w }
{}
