//! Migration: code of either version as version 2 code, with tail calls for calls whose result is returned. A
//! function without a body states laws by its contract.
#![tactic(auto)]

ghost use Rattle.theory_migration.specs.Examples.{WorkedMigrations};
ghost use Rattle.theory_migration.specs.Laws.{MigratedDoesTheSame, MigratedIsValid};

/// Migrations that were worked out by hand.
pub fn worked_migrations()
    ensures examples { WorkedMigrations }
{}

/// What valid code is migrated to is valid.
pub fn migrated_is_valid()
    ensures law { MigratedIsValid }
{}

/// Migrated code halts with given words and heap, faults with given kind and location, or asks, for some
/// number of steps, exactly where the old code does for some number of steps.
pub fn migrated_does_the_same()
    ensures law { MigratedDoesTheSame }
{}
