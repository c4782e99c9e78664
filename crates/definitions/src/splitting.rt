//! Laws of the split of whole units, as theorems about its definition alone.

ghost use Rattle.definitions.specs.SplitLaws.{SharesSumToUnits, SharesAreNearEven, NoWeightGetsNothing};

/// A split by largest remainders (Hamilton's method) gives out its units, and gives them evenly.
///
/// Over rising numbers with weights of which one is positive, the shares add up to the units. Each
/// share is less than one unit off the even share, which is the units times the weight over the
/// sum of the weights, and a weight of 0 gets nothing.
pub fn split_laws()
    ensures shares_sum_to_units { SharesSumToUnits }
    ensures shares_are_near_even { SharesAreNearEven }
    ensures no_weight_gets_nothing { NoWeightGetsNothing }
{}
