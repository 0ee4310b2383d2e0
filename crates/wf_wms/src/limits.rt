//! The limits of requests. Those of pictures and boxes are `wf_geometry`'s.
ghost use Rattle.std.specs.Prelude.{◌≡◌};
ghost use Rattle.wf_wms.specs.Limit.{most_entries};

/// The most layers of a request, as in the service metadata (LayerLimit).
pub const MOST_ENTRIES: usize = 64;

/// The constant is the number in the definitions. A theorem: the call does nothing.
pub fn constants_are_the_limits()
    ensures { MOST_ENTRIES ≡ most_entries }
{}
