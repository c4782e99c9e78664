//! Texts in pieces: what is answered is what the whole text is answered, and it comes in time.

use super::claims::FAILURES;
use super::lines::{ARC_FAULTS, RANGES, WRONG_BYTES};
use super::{ONE_LINE, ONE_LINE_VERDICT, one_line, text_with};
use crate::checker::Checker;
use crate::checking::Verdict;
use crate::refused::Refused;
use std::alloc::Global;
use std::test::Fail;

// The answer to a text that is cut at one place.
fn answer_to(alloc: Global, text: &[u8], cut: usize) -> Result<Verdict, Refused> {
    let (first, second) = text.split_at(cut.min(text.len()));
    let mut checker = Checker::new(alloc);
    checker.feed(first)?;
    checker.feed(second)?;
    checker.finish()
}

// The first place at which a cut changes the refusal of a text.
fn other_cut(alloc: Global, text: &[u8], refused: Refused) -> Option<usize> {
    for cut in 0..=text.len() {
        if answer_to(alloc, text, cut) != Err(refused) {
            return Some(cut);
        }
    }
    None
}

#[test]
fn a_text_is_fed_by_bytes(rt: HostRuntime) -> Result<(), Fail> {
    let text = one_line(rt.alloc())?;
    let mut checker = Checker::new(rt.alloc());
    for byte in &text {
        assert_eq!(rt; checker.feed(&[*byte]), Ok(()));
    }
    assert_eq!(rt; checker.finish(), Ok(ONE_LINE_VERDICT));
    Ok(())
}

#[test]
fn a_cut_changes_no_verdict(rt: HostRuntime) -> Result<(), Fail> {
    let text = one_line(rt.alloc())?;
    for cut in 0..=text.len() {
        let answer = answer_to(rt.alloc(), &text, cut);
        assert_eq!(rt; answer, Ok(ONE_LINE_VERDICT), "at {cut}");
    }
    Ok(())
}

#[test]
fn a_cut_changes_no_refusal(rt: HostRuntime) -> Result<(), Fail> {
    for (place, line, at) in &WRONG_BYTES {
        let text = text_with(rt.alloc(), &ONE_LINE, *place, line)?;
        let refused = Refused::Grammar { at: *at };
        assert_eq!(rt; other_cut(rt.alloc(), &text, refused), None, "at {line}");
    }
    for (place, line, limit, count) in &RANGES {
        let text = text_with(rt.alloc(), &ONE_LINE, *place, line)?;
        let refused = Refused::Range {
            limit: *limit,
            count: *count,
        };
        assert_eq!(rt; other_cut(rt.alloc(), &text, refused), None, "at {line}");
    }
    for (place, line, fault) in &ARC_FAULTS {
        let text = text_with(rt.alloc(), &ONE_LINE, *place, line)?;
        let refused = Refused::Arc(*fault);
        assert_eq!(rt; other_cut(rt.alloc(), &text, refused), None, "at {line}");
    }
    for (place, line, refused) in &FAILURES {
        let text = text_with(rt.alloc(), &ONE_LINE, *place, line)?;
        assert_eq!(rt; other_cut(rt.alloc(), &text, *refused), None, "at {line}");
    }
    let text = one_line(rt.alloc())?;
    let front = text.get(..98).ok_or("98 bytes")?;
    let refused = Refused::Grammar { at: 98 };
    assert_eq!(rt; other_cut(rt.alloc(), front, refused), None);
    Ok(())
}

// The `u` line begins at byte 92, so the 3 after its 0 stands at 95. Then the answer stays.
#[test]
fn a_wrong_byte_is_refused_when_it_comes(rt: HostRuntime) -> Result<(), Fail> {
    let text = text_with(rt.alloc(), &ONE_LINE, 8, "u 0317142")?;
    let refused = Err(Refused::Grammar { at: 95 });
    let mut checker = Checker::new(rt.alloc());
    for (at, byte) in text.iter().enumerate() {
        let answer = if at < 95 { Ok(()) } else { refused };
        assert_eq!(rt; checker.feed(&[*byte]), answer, "at {at}");
    }
    assert_eq!(rt; checker.feed(b""), refused);
    assert_eq!(rt; checker.finish(), Err(Refused::Grammar { at: 95 }));
    Ok(())
}

#[test]
fn a_text_that_ends_early_is_refused_at_its_end(rt: HostRuntime) -> Result<(), Fail> {
    let text = one_line(rt.alloc())?;
    assert_eq!(rt; text.len(), 126);
    for end in 0..126 {
        let mut checker = Checker::new(rt.alloc());
        assert_eq!(rt; checker.feed(&text[..end]), Ok(()), "at {end}");
        let refused = Refused::Grammar { at: end as u64 };
        assert_eq!(rt; checker.finish(), Err(refused), "at {end}");
    }
    Ok(())
}
