//! Comparisons of two values.

/// How two values are compared: the comparison operators of SQL (ISO/IEC 9075).
#[derive(Clone, Copy, Debug, PartialEq, Eq)]
pub enum ComparisonOperator {
    Equal,
    NotEqual,
    Less,
    LessOrEqual,
    Greater,
    GreaterOrEqual,
}
