ghost use Rattle.wf_frame.specs.Theorem.{FramesAreRead, BodiesAreRead, NoneBeginsAnother};

use crate::format::FrameFormat;

/// A whole frame is split off the front of bytes, whatever follows it, and nothing else is; an
/// error remains, whatever follows, unless it is that more bytes are needed. A theorem about the
/// definitions: the call does nothing.
pub fn frames_are_read<F: FrameFormat>()
    ensures { FramesAreRead F.format }
{}

/// A body is read as its parts, and nothing else is. A theorem about the definitions: the call does
/// nothing.
pub fn bodies_are_read()
    ensures { BodiesAreRead }
{}

/// A frame has one reading, and no frame is a prefix of another. A theorem about the definitions:
/// the call does nothing.
pub fn none_begins_another<F: FrameFormat>()
    ensures { NoneBeginsAnother F.format }
{}
