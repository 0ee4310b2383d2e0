//! The limits of a map definition, each with its unit. Those of its texts and numbers are
//! `wf_text`'s.
ghost use Rattle.std.specs.Prelude.{◌≡◌};
ghost use Rattle.wf_def.specs.Limit.{most_buffer, most_classes, most_features, most_items_bytes, most_layers, most_points, most_priority, most_size, most_styles, most_width};

/// The most layers of a map.
pub const MOST_LAYERS: usize = 64;

/// The most classes of a layer.
pub const MOST_CLASSES: usize = 16;

/// The most styles of a class.
pub const MOST_STYLES: usize = 8;

/// The most features of a map, over all its layers.
pub const MOST_FEATURES: usize = 2_000;

/// The most points of a map, over all its features.
pub const MOST_POINTS: usize = 20_000;

/// The longest list of attribute names after a layer's `ITEMS=`, in bytes: a text less those six.
pub const MOST_ITEMS_BYTES: usize = 994;

/// The widest line, in pixels.
pub const MOST_WIDTH: u8 = 16;

/// The largest marker, in pixels.
pub const MOST_SIZE: u8 = 64;

/// The highest priority of a label; the lowest is 1.
pub const MOST_PRIORITY: u8 = 10;

/// The widest free space around a label, in pixels.
pub const MOST_BUFFER: u8 = 64;

/// Each constant is the number in the definitions. A theorem: the call does nothing.
pub fn constants_are_the_limits()
    ensures layers { MOST_LAYERS ≡ most_layers }
    ensures classes { MOST_CLASSES ≡ most_classes }
    ensures styles { MOST_STYLES ≡ most_styles }
    ensures features { MOST_FEATURES ≡ most_features }
    ensures points { MOST_POINTS ≡ most_points }
    ensures items_bytes { MOST_ITEMS_BYTES ≡ most_items_bytes }
    ensures width { MOST_WIDTH ≡ most_width }
    ensures size { MOST_SIZE ≡ most_size }
    ensures priority { MOST_PRIORITY ≡ most_priority }
    ensures buffer { MOST_BUFFER ≡ most_buffer }
{}
