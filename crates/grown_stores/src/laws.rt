//! The law of stores that grow.
ghost use Rattle.grown_stores.specs.Growing.{GrownStoresOpen};

/// What a store opens to, the store that it was moved into opens to: the same name, tables and units in doubt.
pub fn grown_stores_open()
    ensures { GrownStoresOpen }
{}
