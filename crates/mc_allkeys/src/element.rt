ghost use Rattle.std.specs.List.{All};
ghost use Rattle.mc_allkeys.specs.Sound.{HasWeights};

/// A collation element: its primary, secondary and tertiary weight (UTS #10, 3.1). A weight of 0
/// is ignored.
#[derive(Clone, Copy, Debug, PartialEq, Eq)]
pub struct Element {
    /// The primary weight.
    pub p: u16,
    /// The secondary weight.
    pub s: u16,
    /// The tertiary weight.
    pub t: u16,
}

/// The weights of elements have two bytes each. (What its type tells of a number is known where it
/// is read.)
pub(crate) fn read_weights(elements: &[Element])
    ensures { All HasWeights elements.now }
{
    for element in elements {
        read_weight(*element);
    }
}

/// The weights of an element have two bytes each.
fn read_weight(element: Element)
    ensures { HasWeights element }
{
    let Element { .. } = element;
}
