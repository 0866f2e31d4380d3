//! The laws of faults, each a clause of a function that does nothing.

ghost use Rattle.stack_faults.specs.Outline.{OutlineByMeaning, FewPointsAreTheirOutline};
ghost use Rattle.stack_faults.specs.AsListed.{StructureAsListed};
ghost use Rattle.stack_faults.specs.Laws.{FirstContentFault, ContentWhereFaultless, CrookedByMeaning, FirstShapeFault};
ghost use Rattle.stack_faults.specs.Laws.{ShapeWhereFaultless, FirstTableFault, StructureWhereFaultless};
ghost use Rattle.stack_faults.specs.Laws.{FirstFileFault, FileWhereFaultless};
ghost use Rattle.stack_faults.specs.WorkedFaults.{WorkedFaults};

/// A list of points gives a strictly convex one, itself or else its reversal. Or neither is strictly convex, and
/// the edge that is told is the list's first that doesn't have every other corner strictly left of it.
pub fn outline_by_meaning()
    ensures meaning { OutlineByMeaning }
    ensures few { FewPointsAreTheirOutline }
{}

/// Of what a file lists, the fault that is answered is the first of all faults of content, and a structure comes
/// exactly if there is none. The structure is what is listed, but for outlines in place of corners and numbers in place
/// of names. Corners have a fault of their own exactly if they have no outline.
pub fn first_content_fault()
    ensures first { FirstContentFault }
    ensures faultless { ContentWhereFaultless }
    ensures listed { StructureAsListed }
    ensures crooked { CrookedByMeaning }
{}

/// Of a document's table, the fault that is answered is the first of all faults of shape and, where it has none, of
/// content; and a structure comes exactly if there is none.
pub fn first_table_fault()
    ensures shape { FirstShapeFault }
    ensures shape_faultless { ShapeWhereFaultless }
    ensures first { FirstTableFault }
    ensures faultless { StructureWhereFaultless }
{}

/// Of a file's bytes, the fault that is answered is that they are no document, where they are none, and else the first
/// of all faults of its table; and a structure comes exactly if there is none.
pub fn first_file_fault()
    ensures first { FirstFileFault }
    ensures faultless { FileWhereFaultless }
{}

/// Small files with several faults at once, and all their faults in order.
pub fn worked_faults()
    ensures { WorkedFaults }
{}
