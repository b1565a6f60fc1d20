//! Callers of byte classes, each run once.
use crate::asserted::assert_prints;
use literal_base::alphabet::{ByteClassSet, ByteClasses, ByteSet};
use std::test::Fail;
use test_contracts::classes::{
    classes_inside, classes_of, copied, count_of_classes, count_of_elements, elements_taken,
    have_their_class, next_after_all, runs_collected,
};

const THREE: [(u8, u8); 3] = [(b'b', b'd'), (b'g', b'm'), (b'z', b'z')];

#[test]
fn tells_what_its_callers_ask(rt: HostRuntime) {
    let classes = classes_of(&THREE);
    assert!(rt; count_of_classes(&classes) == 7 && classes.stride() == 8);
    assert!(rt; count_of_elements(&classes, 0) == 98 && count_of_elements(&classes, 6) == 133);
    assert!(rt; have_their_class(&classes, 2) && have_their_class(&classes, 9));
    let mut fifth = classes.elements(5);
    assert!(rt; fifth.next() == Some(b'z') && next_after_all(&mut fifth).is_none());
    assert!(rt; fifth.next().is_none());
    let mut all = classes.iter();
    for class in 0..7 {
        assert!(rt; all.next() == Some(class));
    }
    assert!(rt; all.next().is_none() && all.next().is_none());
}

#[test]
fn lists_bytes(rt: HostRuntime) -> Result<(), Fail> {
    let classes = classes_of(&THREE);
    let bytes = elements_taken(rt.alloc(), &classes, 2)?;
    assert!(rt; bytes.as_slice() == b"ef".as_slice());
    let runs = runs_collected(rt.alloc(), &ByteClasses::empty(), 0)?;
    assert!(rt; runs.as_slice() == [(0, 255)].as_slice());
    let inside = classes_inside(rt.alloc(), &THREE)?;
    assert!(rt; inside.as_slice() == [false, true, false, true, false, true, false].as_slice());
    let mut set = ByteClassSet::default();
    set.set_range(b'a', b'z');
    assert!(rt; copied(&set)?.byte_classes().alphabet_len() == 3);
    Ok(())
}

#[test]
fn holds_bytes(rt: HostRuntime) -> Result<(), Fail> {
    let mut set = ByteSet::empty();
    assert!(rt; set == ByteSet::default());
    set.add(0);
    set.add(b'a');
    let copy = set;
    set.add(255);
    set.add(255);
    assert!(rt; set.contains(0) && set.contains(b'a') && set.contains(255));
    assert!(rt; !set.contains(1) && !set.contains(b'A'));
    assert!(rt; !copy.contains(255) && copy != set);
    assert_prints(&rt, rt.alloc(), &set)?;
    assert_prints(&rt, rt.alloc(), &ByteClassSet::empty())?;
    assert_prints(&rt, rt.alloc(), &ByteClasses::empty())?;
    Ok(())
}
