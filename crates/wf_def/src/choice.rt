//! The enumerations of a map definition: each variant is a word of the mapfile.

/// The coordinate system of a map's EXTENT and points (MapServer mapfile reference, PROJECTION).
#[derive(Clone, Copy, PartialEq, Eq)]
pub enum Projection {
    /// `init=epsg:4326`: degrees of longitude, then latitude, in this order in a mapfile.
    Epsg4326,
    /// `init=epsg:3857`: metres to the east, then to the north.
    Epsg3857,
}

/// What a layer's features are (MapServer mapfile reference, LAYER TYPE).
#[derive(Clone, Copy, PartialEq, Eq)]
pub enum LayerKind {
    /// `POINT`: a marker at each point.
    Points,
    /// `LINE`: each part is a line through two points or more.
    Lines,
    /// `POLYGON`: each part is a ring of three points or more.
    Polygons,
}

/// How large a label's letters are (MapServer mapfile reference, LABEL SIZE).
#[derive(Clone, Copy, PartialEq, Eq)]
pub enum LabelSize {
    Tiny,
    Small,
    Medium,
    Large,
    Giant,
}

/// The position of a label relative to its point (MapServer mapfile reference, LABEL POSITION).
#[derive(Clone, Copy, PartialEq, Eq)]
pub enum LabelPosition {
    UpperLeft,
    UpperCenter,
    UpperRight,
    CenterLeft,
    CenterCenter,
    CenterRight,
    LowerLeft,
    LowerCenter,
    LowerRight,
}
