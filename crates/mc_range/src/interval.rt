use mc_base::Weights;

/// An interval of lists of weights, whose ends count. An end that is absent is open. The number 0
/// in an end is below every weight, and `mc_key::TOP` above.
#[derive(Drop)]
pub struct Interval {
    /// The lower end.
    pub lo: Option<Weights>,
    /// The upper end.
    pub hi: Option<Weights>,
}
