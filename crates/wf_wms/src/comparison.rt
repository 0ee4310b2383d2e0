/// How the value of UPDATESEQUENCE compares with the server's update sequence.
#[derive(Clone, Copy)]
pub enum Comparison {
    /// The parameter is absent, or its value is empty.
    Absent,
    /// The value has a byte that isn't a decimal digit.
    NoNumber,
    /// The number is below the server's.
    Below,
    /// The number equals the server's.
    Equal,
    /// The number is above the server's.
    Above,
}
