//! Texts that are gathered arrive in order, and a fault counts them.

use super::Gathered;
use crate::memory_sink::MemorySink;
use crate::whole::WriteFault;
use std::test::Fail;

// A text longer than the room in which texts wait goes after those that wait.
#[test]
fn texts_arrive_in_order(rt: HostRuntime) -> Result<(), Fail> {
    let mut sink = MemorySink::new(rt.alloc(), 10_000, 1000, Vec::new(rt.alloc()))?;
    let long = vec![in rt.alloc(); b'b'; 5000]?;
    let mut gathered = Gathered::new();
    assert_eq!(rt; gathered.write(&mut sink, b"abc"), Ok(()));
    assert_eq!(rt; sink.bytes().len(), 0);
    assert_eq!(rt; gathered.write(&mut sink, &long), Ok(()));
    assert_eq!(rt; sink.bytes().len(), 5003);
    assert_eq!(rt; gathered.write(&mut sink, b"d"), Ok(()));
    assert_eq!(rt; gathered.flush(&mut sink), Ok(()));
    assert_eq!(rt; sink.bytes().len(), 5004);
    let front = sink.bytes().get(..4).ok_or("four bytes")?;
    assert_eq!(rt; front, b"abcb".as_slice());
    let end = sink.bytes().get(5002..).ok_or("two bytes more")?;
    assert_eq!(rt; end, b"bd".as_slice());
    Ok(())
}

#[test]
fn a_fault_counts_all_that_was_sent(rt: HostRuntime) -> Result<(), Fail> {
    let mut sink = MemorySink::new(rt.alloc(), 5, 2, Vec::new(rt.alloc()))?;
    let mut gathered = Gathered::new();
    assert_eq!(rt; gathered.write(&mut sink, b"abc"), Ok(()));
    assert_eq!(rt; gathered.flush(&mut sink), Ok(()));
    assert_eq!(rt; gathered.write(&mut sink, b"defg"), Ok(()));
    assert_eq!(rt; gathered.flush(&mut sink), Err(WriteFault { sent: 5 }));
    assert_eq!(rt; sink.bytes(), b"abcde".as_slice());
    Ok(())
}
