//! Which build of the program this is: its version, and the revision of the repository that it was
//! built from.
//!
//! A revision in the source would be another source: each commit would have everything above it
//! proved anew. So the source has forty zeros, and `tools/stamp.py` puts the revision over them in
//! the program that was built. Each text has them whole, and nothing here or above reads what it
//! says, so that no compiler takes it apart. Zeros that stayed: the program wasn't told its
//! revision.
#![tactic(auto)]

/// The version and the revision, as `wfarm --version` writes them.
pub const BUILD: &str = "0.1.0 (revision 0000000000000000000000000000000000000000)";

/// The version and the revision, as labels of a Prometheus sample.
pub const BUILD_LABELS: &str =
    "{version=\"0.1.0\",revision=\"0000000000000000000000000000000000000000\"}";
