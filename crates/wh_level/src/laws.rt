//! What levels and first walks are, as laws about their definitions. Each function stands for its clauses and does nothing.
ghost use Rattle.wh_level.specs.Laws.{LevelIsWhatIsReached, LevelIsUnique, LimitIsExact, FirstWalkIsUnique, ClosedLevelIsUnique, EdgesAreUnique};

/// The level of a tuple is what lists of moves that keep the length reach from it, identity cuts among them or not; a root
/// has one level; and a level that has more tuples than a limit isn't within it.
pub fn level()
    ensures reached { LevelIsWhatIsReached }
    ensures unique { LevelIsUnique }
    ensures limit { LimitIsExact }
{}

/// There is one first walk to a tuple, and so a root has one level with the parents of its first walks.
pub fn first_walks()
    ensures unique { FirstWalkIsUnique }
    ensures level { ClosedLevelIsUnique }
{}

/// A level has one list of edges.
pub fn level_edges()
    ensures unique { EdgesAreUnique }
{}
