//! Means and deviations by hand, which the check computes.

ghost use Rattle.tw_figures.specs.Examples.{EightValues, OneValue, Wrapped};

/// The mean and the standard deviation of the eight values 2, 4, 4, 4, 5, 5, 7, 9, and of the one value -3; and that sums that no values
/// have give no deviation. It does nothing.
pub fn deviations()
    ensures eight { EightValues }
    ensures one { OneValue }
    ensures wrapped { Wrapped }
{}
