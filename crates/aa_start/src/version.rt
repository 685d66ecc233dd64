//! The version of both programs.

/// The version of both programs.
pub const VERSION: &str = "0.1.0";
