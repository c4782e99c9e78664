//! A queue with changed numbers and ties.

use super::{Queue, Taken};
use std::test::Fail;

#[test]
fn items_come_by_number_and_then_by_item(rt: HostRuntime) -> Result<(), Fail> {
    let mut queue = Queue::new(rt.alloc(), 5)?;
    queue.put(4, 7);
    queue.put(2, 9);
    queue.put(0, 9);
    queue.put(3, 1);
    // A number goes up, and one goes down.
    queue.put(3, 9);
    queue.lower(2, 8);
    queue.lower(4, 8);
    assert_eq!(rt; queue.number(1), None);
    assert_eq!(rt; queue.number(3), Some(9));
    for (item, number) in [(4, 7), (2, 8), (0, 9), (3, 9)] {
        assert_eq!(rt; queue.take(), Some(Taken { item, number }), "item {item}");
    }
    assert_eq!(rt; queue.take(), None);
    Ok(())
}
