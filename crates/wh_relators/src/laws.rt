//! Laws of the relations. Each is the contract of a function that does nothing.
ghost use Rattle.wh_relators.specs.Laws.{FamiliesAreRelations, InstancesLeadRound, SingleCutsTellInstances, RelationsAreLight};

/// The nine families are relations of moves, their instances lead round in a level, single cuts tell which
/// lists are instances (McCool 1974, 1975), and no list is too heavy in the ranks of stabilisers.
pub fn relations_of_families()
    ensures relations { FamiliesAreRelations }
    ensures instances { InstancesLeadRound }
    ensures told { SingleCutsTellInstances }
    ensures light { RelationsAreLight }
{}
