//! What is told of the modules that workers work.

ghost use Rattle.std.specs.Prelude.{◌≡◌, [], ◌∷◌, Option, option_map};
ghost use Rattle.shared_schedule.specs.Visits.{History, with_visits, with_handle, no_visits, gathered};

/// What is told of each module before a worker works it. Each worker has a handle of its own, and what the handles of
/// workers that have ended were told comes together again. The member says what a handle was told, where it tells it.
pub trait Gate {
    ghost told: { Self → Option History };

    /// Told before the module of this number is worked.
    fn enter(&mut self, number: u32)
        ensures { told self.new ≡ option_map (with_visits (number ∷ [])) (told self.old) };

    /// A handle for another worker.
    fn another(&mut self) -> Self
        ensures lent { told self.new ≡ option_map with_handle (told self.old) }
        ensures new { told result ≡ option_map no_visits (told self.old) };

    /// Takes the handle of a worker that has ended.
    fn gather(&mut self, other: Self)
        ensures { told self.new ≡ gathered (told self.old) (told other) };
}

/// The gate that does nothing, and tells nothing.
#[derive(Clone, Copy)]
pub struct Open;

impl Gate for Open {
    ghost use Rattle.std.specs.Prelude.{None};

    ghost told = { λ _. None };

    fn enter(&mut self, _number: u32) {}

    fn another(&mut self) -> Open {
        Open
    }

    fn gather(&mut self, _other: Open) {}
}
