//! The laws on reset ports, each a clause of a function that does nothing.
ghost use Rattle.std.specs.Prelude.{◌≡◌, ℕ, true};
ghost use Rattle.hw_model.specs.Design.{Module, Design, module_without_locations, IsSameDesign};
ghost use Rattle.port_checks.specs.ResetPorts.{IsResetPort, is_reset_port};

/// Does nothing. Its clauses say that the decision of reset ports is true exactly of the least set: of each of its ports,
/// and of no other.
pub fn reset_ports_are_least()
    ensures sound { (d : Design) (m : Module) (j : ℕ) → is_reset_port d m j ≡ true → IsResetPort d m j }
    ensures complete { (d : Design) (m : Module) (j : ℕ) → IsResetPort d m j → is_reset_port d m j ≡ true }
{}

/// Does nothing. Its clause says that in two designs that differ in nothing but positions the modules that do so have the same
/// reset ports.
pub fn locations_decide_no_reset_port()
    ensures { (d e : Design) (m n : Module) → IsSameDesign d e → module_without_locations m ≡ module_without_locations n → (j : ℕ)
        → is_reset_port d m j ≡ is_reset_port e n j }
{}
