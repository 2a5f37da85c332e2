//! The lines of what presents a stabiliser.
ghost use Rattle.std.specs.Prelude.{◌≡◌, ℕ, ◌+◌, ◌≤◌, ◌++◌, None, length};
ghost use Rattle.wh_words.specs.Levels.{IsLevel};
ghost use Rattle.wh_data.specs.AnswerData.{plains, parts_of};
ghost use Rattle.wh_data.specs.Numberings.{ArePartsOfRank, tree_lines};
ghost use Rattle.wh_data.specs.RootPlaces.{root_place};
ghost use Rattle.wh_cert.specs.Demands.{level_asked, tree_asked, generators_asked, relators_asked, parts_asked};
ghost use Rattle.wh_cert.specs.Judged.{Judges};
ghost use Rattle.wh_cert.specs.Checks.{AreMet};

use crate::generators::judge_generators;
use crate::levels::judge_level;
use crate::relators::judge_relators;
use crate::stop::Stop;
use crate::tree::judge_tree;
use std::alloc::Global;
use wh_data::Parts;
use wh_words::Tuple;

/// Judges the `generators` line, which is at a place, and the lines after it of what presents the stabiliser of an end by
/// its level.
fn judge_edges(alloc: Global, place: usize, end: &Tuple, parts: &Parts) -> Result<(), Stop>
    requires parts { ArePartsOfRank end.now.plain.rank end.now.plain (parts_of parts.now) }
    requires level { IsLevel end.now.plain (parts_of parts.now).vertices }
    requires low { place ≤ 300000 }
    ensures { Judges (generators_asked place (parts_of parts.now) ++ relators_asked (place + 2 + length parts.now.generators) end.now.plain.rank (parts_of parts.now)) result }
{
    judge_generators(alloc, place, end, parts)?;
    let after = place + 2 + parts.generators.items().len();
    judge_relators(alloc, after, end, parts)
}

/// Judges the `tree` lines, which name vertices by these numbers and of which the first is at a place, and the lines after
/// them of what presents the stabiliser of an end, where what is asked of the level is met.
fn judge_walks(
    alloc: Global,
    place: usize,
    tree_heads: &[u32],
    end: &Tuple,
    parts: &Parts,
) -> Result<(), Stop>
    requires parts { ArePartsOfRank end.now.plain.rank end.now.plain (parts_of parts.now) }
    requires level { (at : ℕ) × AreMet (level_asked at end.now.plain None (plains parts.now.vertices)) }
    requires heads { length tree_heads.now ≡ tree_lines (parts_of parts.now) }
    requires low { place ≤ 150000 }
    ensures { Judges (tree_asked place tree_heads.now (root_place end.now.plain (plains parts.now.vertices)) (parts_of parts.now) ++ (generators_asked (place + tree_lines (parts_of parts.now)) (parts_of parts.now) ++ relators_asked (place + 2 + tree_lines (parts_of parts.now) + length parts.now.generators) end.now.plain.rank (parts_of parts.now))) result }
{
    judge_tree(alloc, place, tree_heads, end, parts)?;
    judge_edges(alloc, place + tree_heads.len(), end, parts)
}

/// Judges the lines of what presents the stabiliser of an end, of which the first is at a place, and whose `tree` lines name
/// vertices by these numbers: the level, a tree of it, the generators, and relators.
pub(crate) fn judge_parts(
    alloc: Global,
    place: usize,
    tree_heads: &[u32],
    end: &Tuple,
    parts: &Parts,
) -> Result<(), Stop>
    requires parts { ArePartsOfRank end.now.plain.rank end.now.plain (parts_of parts.now) }
    requires heads { length tree_heads.now ≡ tree_lines (parts_of parts.now) }
    requires low { place ≤ 500 }
    ensures { Judges (parts_asked place tree_heads.now end.now.plain (parts_of parts.now)) result }
{
    let vertices = parts.vertices.items();
    judge_level(alloc, place, end, None, vertices)?;
    judge_walks(alloc, place + 1 + vertices.len(), tree_heads, end, parts)
}
