//! Maps by their update sequences.
ghost use Rattle.std.specs.Prelude.{◌≡◌, ◌≤◌, List, Some, length};
ghost use Rattle.wf_def.specs.Definition.{Definition};
ghost use Rattle.wf_learner.specs.History.{map_at};

use wf_def::MapDef;

/// A server's source of maps.
pub(crate) trait MapSource {
    /// The published definitions; the first has sequence 1.
    ghost definitions: { Self → List Definition };

    /// The map of a published sequence; the empty map for 0.
    fn published_map(&self, seq: u16) -> &MapDef
        requires { seq ≤ length (definitions self.now) }
        ensures { map_at (definitions self.now) seq ≡ Some result.now };
}
