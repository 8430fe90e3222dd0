//! What gives variables their bits.
ghost use Rattle.std.specs.Prelude.{◌≡◌, ℕ, ◌<◌, ◌^◌, nat_eq, cond, Some, OnOk, IfOk};
ghost use Rattle.aiger_laws.specs.Drivers.{nothing};
ghost use Rattle.std.specs.List.{list_any};
ghost use Rattle.aiger_laws.specs.Rows.{is_driven, is_beyond, is_undefinable};
ghost use Rattle.aiger_reader.specs.Kept.{driver_in, drivers_of, driver_fault, Defines};

use aiger_laws::fault::Fault;
use std::alloc::{AllocError, Global};
use std::collections::HashMap;

/// What gives a variable its bit: the input, the latch or the gate at a place.
#[derive(Clone, Copy, Debug, PartialEq, Eq)]
pub enum Driver {
    Input(u32),
    Latch(u32),
    Gate(u32),
}

/// What gives each variable its bit.
#[derive(Drop)]
pub struct Drivers {
    by_variable: HashMap<u32, Driver>,
}

impl Drivers {
    /// No variable has its bit. It takes no memory.
    pub(crate) fn new(alloc: Global) -> Drivers
        ensures { (v : ℕ) → drivers_of result v ≡ nothing }
    {
        Drivers {
            by_variable: HashMap::new(alloc),
        }
    }

    /// What gives the variable its bit, if anything does.
    pub fn driver(&self, variable: u32) -> Option<Driver>
        ensures { driver_in result ≡ drivers_of self.now variable }
    {
        self.by_variable.get(&variable).copied()
    }

    /// Whether something gives the variable its bit.
    pub(crate) fn is_driven(&self, variable: u32) -> bool
        ensures { result ≡ is_driven (drivers_of self.now variable) }
    {
        self.by_variable.contains_key(&variable)
    }

    /// The driver gives the variable its bit.
    pub(crate) fn put(&mut self, variable: u32, driver: Driver) -> Result<(), AllocError>
        ensures { OnOk result ((v : ℕ) → drivers_of self.new v ≡ cond (nat_eq variable v) (driver_in (Some driver)) (drivers_of self.old v)) }
    {
        self.by_variable.insert(variable, driver)?;
        Ok(())
    }

    /// The driver gives the literal's variable its bit, if the literal may be defined and the others may be used. Why they
    /// may not.
    pub(crate) fn define(
        &mut self,
        most: u64,
        literal: u64,
        used: &[u64],
        driver: Driver,
    ) -> Result<Option<Fault>, AllocError>
        requires { most < 2 ^ 31 }
        ensures fault { IfOk result (λ fault. fault ≡ driver_fault most (drivers_of self.old) literal used.now) }
        ensures defines { IfOk result (λ fault. Defines fault literal (driver_in (Some driver)) (drivers_of self.old) (drivers_of self.new)) }
    {
        if is_undefinable(most, literal) || are_beyond(most, used) {
            return Ok(Some(Fault::OutOfRange));
        }
        let variable = (literal / 2) as u32;
        if self.is_driven(variable) {
            return Ok(Some(Fault::DefinedTwice));
        }
        self.put(variable, driver)?;
        Ok(None)
    }
}

/// Whether a literal is above those of the greatest variable.
pub(crate) fn is_beyond(most: u64, literal: u64) -> bool
    requires { most < 2 ^ 31 }
    ensures { result ≡ is_beyond most literal }
{
    2 * most + 1 < literal
}

/// Whether one of the literals is.
fn are_beyond(most: u64, literals: &[u64]) -> bool
    requires { most < 2 ^ 31 }
    ensures { result ≡ list_any (is_beyond most) literals.now }
{
    literals.iter().any(|literal| is_beyond(most, *literal))
}

/// Whether a literal can not be defined.
fn is_undefinable(most: u64, literal: u64) -> bool
    requires { most < 2 ^ 31 }
    ensures { result ≡ is_undefinable most literal }
{
    is_beyond(most, literal) || (literal % 2 == 1 || literal < 2)
}
