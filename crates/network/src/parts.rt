//! Lists that lie one after the other in one list.

ghost use Rattle.std.specs.Prelude.{◌≡◌, ◌<◌, ◌+◌, length};
ghost use Rattle.network.specs.Parts.{AreFirsts, part_at};

/// The items of a place, from its first to the first of the next place.
pub(crate) fn part_of<'a, T>(items: &'a [T], firsts: &[usize], place: u32) -> &'a [T]
    requires firsts { AreFirsts firsts.now (length items.now) }
    requires place { place + 1 < length firsts.now }
    ensures value { result.now ≡ part_at firsts.now items.now place }
{
    let place = place as usize;
    &items[firsts[place]..firsts[place + 1]]
}
