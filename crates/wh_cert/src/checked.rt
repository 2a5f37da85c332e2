//! What is found of a certificate.
ghost use Rattle.std.specs.Prelude.{◌≡◌};
ghost use Rattle.wh_cert.specs.Rules.{rule_name};

/// What is asked of the lines of a certificate.
#[derive(Debug, Clone, Copy, PartialEq, Eq)]
pub enum Rule {
    /// Every tuple on the way of a list of moves has at most 4,096 letters.
    Long,
    /// The moves carry the first tuple onto the second.
    Moves,
    /// The trace carries the tuple to its end.
    End,
    /// The two ends have different lengths where there is no level, and one length where there is one.
    Length,
    /// The line has a flow of its generator, whose value is the generator's degree.
    Flow,
    /// The end of the first side, or of the one side, is in the level.
    Root,
    /// The tuples of the level rise.
    Sorted,
    /// The tuples of the level have the length of that end.
    Height,
    /// The end of the second side isn't in the level.
    Absent,
    /// The images of the tuples of the level under level moves are in the level.
    Closed,
    /// The line names the next vertex but the end. A move that isn't an identity cut leads there from its parent, which is
    /// a vertex, and parents lead from it to the end.
    Tree,
    /// There are as many generators as edges that aren't of the tree.
    Generators,
    /// The line tells the next edge that isn't of the tree.
    Generator,
    /// The vertex of the relator is one, and no move on its way is an identity cut or leads out of the level.
    Step,
    /// The moves of the relator lead back to its vertex.
    Loop,
    /// The images of the moves of the relator have at most 65,536 letters on the way.
    Wide,
    /// The composite of the moves of the relator is the identity.
    Identity,
    /// The numbers of the relator are those of the generators on its way.
    Numbers,
}

impl Rule {
    /// The word for the rule.
    pub fn name(self) -> &'static str
        ensures { result.now ≡ rule_name self }
    {
        match self {
            Rule::Long => "long",
            Rule::Moves => "moves",
            Rule::End => "end",
            Rule::Length => "length",
            Rule::Flow => "flow",
            Rule::Root => "root",
            Rule::Sorted => "sorted",
            Rule::Height => "height",
            Rule::Absent => "absent",
            Rule::Closed => "closed",
            Rule::Tree => "tree",
            Rule::Generators => "generators",
            Rule::Generator => "generator",
            Rule::Step => "step",
            Rule::Loop => "loop",
            Rule::Wide => "wide",
            Rule::Identity => "identity",
            Rule::Numbers => "numbers",
        }
    }
}

/// What is found of a certificate: that every line keeps the rules, or the first line that breaks one, by its number, and
/// the first rule that it breaks.
#[derive(Debug, Clone, Copy, PartialEq, Eq)]
pub enum Checked {
    Valid,
    Invalid { line: u32, rule: Rule },
}
