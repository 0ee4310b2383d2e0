//! Theorems about the definitions: of cells and tiles, and of segments.
ghost use Rattle.wf_geometry.specs.Direction.{LinesHaveNoDirection, EdgesHaveNoDirection};
ghost use Rattle.wf_geometry.specs.Drawing.{IsPartOfTheDrawing};
ghost use Rattle.wf_geometry.specs.Grid.{AtMostOneFits};
ghost use Rattle.wf_geometry.specs.Tile.{EachRequestHasAView};

/// At most one cell of the grid fits a request: a cell is at least 1,000 millionths wide, and each
/// side of its box lies within 2 of its own. So [`GridCell::of`](crate::GridCell::of) returns the
/// only one. A theorem: the call does nothing.
pub fn there_is_one_cell()
    ensures { AtMostOneFits }
{}

/// Each request for a box at a size has a view: that of the cell of the grid that fits it, else
/// that of the box itself. A theorem: the call does nothing.
pub fn each_request_has_a_view()
    ensures { EachRequestHasAView }
{}

/// Each tile's view is a part of one drawing over the whole grid of its level. A pixel has the same
/// colour whichever tile's view paints it, so fills and lines continue across neighbouring tiles. A
/// theorem: the call does nothing.
pub fn tiles_are_parts_of_one_drawing()
    ensures { IsPartOfTheDrawing }
{}

/// It makes no difference which end of a segment comes first: a line along it covers the same
/// positions, and the rays that meet it as an edge are the same. A theorem: the call does nothing.
pub fn segments_have_no_direction()
    ensures lines { LinesHaveNoDirection }
    ensures edges { EdgesHaveNoDirection }
{}
