//! Stores and constants: each function's contract is a law.
ghost use Rattle.run_laws.specs.Fields.{StoresTouchAlike};

/// A store touches a constant by the relocation items of a written member exactly where it does by the
/// constants of the program, so a store that is done changes none.
pub fn stores_touch_alike()
    ensures { StoresTouchAlike }
{}
