//! Why sums fit.

ghost use Rattle.tw_figures.specs.Fitting.{MeansFit, SumsFit};

/// Where the values of a figure are numbers of 64 bits, with a sign or without, as those of every model are, the sum over the
/// ticks of a run fits 128 bits. It does nothing.
pub fn sums_fit_law()
    ensures { SumsFit }
{}

/// Of the same values the mean fits too: [`mean`](crate::mean) is `Some`. It does nothing.
pub fn means_fit_law()
    ensures { MeansFit }
{}
