//! Service exceptions.

/// The parameters that an exception can name.
#[derive(Clone, Copy, PartialEq, Eq)]
pub enum Parameter {
    Request,
    Service,
    Version,
    UpdateSequence,
    MapSequence,
    Format,
    Layers,
    Styles,
    Crs,
    Bbox,
    Width,
    Height,
    BackgroundColor,
}

/// A service exception (OGC 06-042, 6.11 and table E.1). The numbers E1 to E10 are this project's.
#[derive(Clone, Copy, PartialEq, Eq)]
pub enum Exception {
    /// E1: a required parameter is absent.
    MissingParameter(Parameter),
    /// E2: a parameter's value isn't allowed.
    BadValue(Parameter),
    /// E3: this entry of LAYERS, counted from 1, isn't a layer's name.
    LayerNotDefined(usize),
    /// E4: this entry of STYLES, counted from 1, isn't a style's name.
    StyleNotDefined(usize),
    /// E5: the map isn't offered in this coordinate reference system.
    InvalidCrs,
    /// E6: maps aren't offered in this format.
    InvalidFormat,
    /// E7: UPDATESEQUENCE equals the server's, so the client's metadata is current.
    CurrentUpdateSequence,
    /// E8: UPDATESEQUENCE is above the server's, or not a number.
    InvalidUpdateSequence,
    /// E9: the server doesn't support this operation.
    OperationNotSupported,
    /// E10: no map is published here at this sequence.
    MapNotPublished,
}
