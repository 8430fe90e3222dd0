//! The law of prices.
ghost use Rattle.std.specs.Prelude.{◌≡◌};
ghost use Rattle.hw_model.specs.Types.{Name};
ghost use Rattle.hw_model.specs.Design.{Module, Design};
ghost use Rattle.flat_module_laws.specs.Sides.{IsPlain};
ghost use Rattle.miter_blast.specs.ComparisonPrices.{copy_price};
ghost use Rattle.miter_blast.specs.BodyPrices.{body_price};

/// Does nothing. Its clause says that the price of a flat module is that of its body.
pub fn prices_are_of_bodies()
    ensures { (d : Design) (top : Name) (m : Module) → IsPlain d top m → copy_price d top m ≡ body_price m.ports m.body }
{}
