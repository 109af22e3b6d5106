//! What follows from the rule, each law on the contract of a function that does nothing.
ghost use Rattle.cutting.specs.Blocks.{BeginsNear, BlockAt, BlocksBegin, BlocksFit, BlocksHalf, BlocksPart};
ghost use Rattle.cutting.specs.Colours.{ColoursApart, EqualNeighbours, LowestIs};
ghost use Rattle.cutting.specs.Locality.{Local, LocalEnd, LocalFront, LocalInside};
ghost use Rattle.cutting.specs.Runs.{RunsAppend, RunsProper, RunsSpell, RunsUnique};
ghost use Rattle.cutting.specs.Splice.{ReachEnd, ReachFront, SpliceBounded, SpliceFew, SpliceKeeps};
ghost use Rattle.cutting.specs.Walk.{WalkBegins, WalkEnds};
ghost use Rattle.cutting.specs.Worked.{WorkedRows};

/// The worked rows, computed.
pub fn worked_rows()
    ensures { WorkedRows }
{}

/// A new colour is made of the lowest bit in which two colours differ; neighbours differ at every stage, and the colours become few.
pub fn colours_apart()
    ensures lowest { LowestIs }
    ensures equal { EqualNeighbours }
    ensures apart { ColoursApart }
{}

/// Blocks part the row, and each has two to six names.
pub fn blocks_fit()
    ensures part { BlocksPart }
    ensures fit { BlocksFit }
    ensures half { BlocksHalf }
    ensures begin { BlocksBegin }
    ensures place { BlockAt }
    ensures near { BeginsNear }
{}

/// With the marks of the rule a walk by `next_block` from place 0 on hands out the blocks of the row, and past the row there are none.
pub fn walk_gives_blocks()
    ensures begins { WalkBegins }
    ensures ends { WalkEnds }
{}

/// Whether a block begins at a place depends only on the names near it.
pub fn cuts_are_local()
    ensures local { Local }
    ensures inside { LocalInside }
    ensures front { LocalFront }
    ensures end { LocalEnd }
{}

/// A row that keeps a front of one row and an end of another keeps their blocks, but for a bounded middle.
pub fn splice_keeps_blocks()
    ensures keeps { SpliceKeeps }
    ensures front { ReachFront }
    ensures end { ReachEnd }
    ensures few { SpliceFew }
    ensures bounded { SpliceBounded }
{}

/// A row has one list of runs, and `next_run` hands them out; the runs of a row followed by another are those of both, but for one that closes over the joint.
pub fn runs_are_unique()
    ensures spell { RunsSpell }
    ensures proper { RunsProper }
    ensures unique { RunsUnique }
    ensures append { RunsAppend }
{}
