//! What holds of every body.
ghost use Rattle.follow_replica.specs.Laws.{TakesOfALawfulHistory};

use disk_model::Disk;

/// Where the replica is a first part of a lawful history and the body is consecutive entries of it, the replica stays one,
/// and neither Form nor Unlawful comes.
pub fn a_replica_of_a_lawful_history<D: Disk>()
    ensures { TakesOfALawfulHistory D.view }
{}
