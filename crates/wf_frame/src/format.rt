ghost use Rattle.std.specs.Prelude.{◌≡◌, option_map};
ghost use Rattle.wf_frame.specs.Frame.{Format, IsFormat};
ghost use Rattle.wf_frame.specs.Layout.{lengths_of};

use crate::lengths::Lengths;

/// A format of frames, such as that of messages: the versions that are read, and the kinds of each
/// of them, by their bytes.
pub trait FrameFormat {
    ghost format: { Format };

    /// Whether frames of this version are read.
    fn reads(version: u8) -> bool
        ensures { result ≡ format.is_read version };

    /// The lengths that a body can have, for a kind's byte in a version; None if there is no such
    /// kind.
    fn lengths(version: u8, kind: u8) -> Option<Lengths>
        ensures { result ≡ option_map lengths_of (format.layout version kind) };

    /// The most bytes of a body.
    fn longest() -> usize
        ensures { result ≡ format.longest };

    ghost is_format: { IsFormat format };
}
