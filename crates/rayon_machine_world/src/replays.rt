//! Runs of a world: events one after the other.
ghost use Rattle.std.specs.Prelude.{◌≡◌, OnOk, ◌<◌, IfErr, None, length, IfSome, slice_get, take};
ghost use Rattle.rayon_machine_world.specs.Running.{world_of};
ghost use Rattle.rayon_machine_runs.specs.Steps.{step as step_of};
ghost use Rattle.rayon_machine_runs.specs.Runs.{IsRun};

use crate::world::World;
use rayon_machine_runs::error::StepError;
use rayon_machine_runs::event::Event;

impl World {
    /// Makes the steps of these events in order, up to the first that is refused: it answers that event's index,
    /// counted from 0, and why. The steps before it are then made, and it itself is not.
    pub fn replay(&mut self, events: &[Event]) -> Result<(), (usize, StepError)>
        ensures run { OnOk result (IsRun (world_of self.old) events.now (world_of self.new)) }
        ensures index { IfErr result (λ e. e.0 < length events.now) }
        ensures before { IfErr result (λ e. IsRun (world_of self.old) (take e.0 events.now) (world_of self.new)) }
        ensures not_enabled { IfErr result (λ e. e.1 ≡ StepError.NotEnabled → IfSome (slice_get events.now e.0) (λ event. step_of (world_of self.new) event ≡ None)) }
        ensures enabled { IfErr result (λ e. e.1 ≡ StepError.NoRoom → IfSome (slice_get events.now e.0) (λ event. ¬ (step_of (world_of self.new) event ≡ None))) }
    {
        for index in 0..events.len() {
            match self.step(events[index]) {
                Ok(()) => {}
                Err(error) => return Err((index, error)),
            }
        }
        Ok(())
    }
}
