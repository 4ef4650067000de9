//! What writes make of the tables' pools, of their hubs and of the leases.

ghost use Rattle.off_runs.specs.Leases.{LeasesMove};

/// Whatever writes are done over tables that open: the pools, their hubs and the leases after them
/// are those before, changed write by write.
pub fn writes_move_leases()
    ensures { LeasesMove }
{}
